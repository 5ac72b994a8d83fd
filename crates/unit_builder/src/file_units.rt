//! The units of a file alone or of files that are linked, made on demand.

ghost use Rattle.std.specs.Prelude.{◌≡◌, ◌<◌, None, length, slice_get, Some, IfOk};
ghost use Rattle.asm_image.specs.Faults.{FirstBroken};
ghost use Rattle.asm_image.specs.Rows.{methods_of};
ghost use Rattle.asm_image.specs.declared.method_row.MethodRow.{MethodRow};
ghost use Rattle.cil_model.specs.declared.unit.Unit.{Unit as MethodUnit};
ghost use Rattle.method_unit.specs.Units.{IsUnit};
ghost use Rattle.unit_builder.specs.Bodies.{callee_keys};
ghost use Rattle.unit_builder.specs.FileSets.{Alone, Several, files_in};
ghost use Rattle.unit_builder.specs.Outcomes.{IfAnalysed, outcome_in};
ghost use Rattle.unit_builder.specs.Scopes.{scope_in};
ghost use Rattle.unit_builder.specs.declared.entry.Outcome.TheVariants.{Analysed};

use crate::calls::callees_of;
use crate::entry::Outcome;
use crate::linked::all_fresh;
use crate::slots::Slot;
use crate::sources::Sources;
use crate::units::{fresh_slots, outcome_at};
use asm_image::{Assembly, MethodRow};
use asm_links::Links;
use cc_base::NoMemory;
use std::alloc::Global;
use std::marker::Model;

/// The units of files. Contracts see the files.
///
/// The code of a method is read when it is first asked for, be it for its own unit or for that of a caller in any of
/// the files, and not again as long as each unit is asked for once.
#[derive(Drop)]
pub struct FileUnits<'a> {
    sources: Sources<'a>,
    /// Those of each file: for each method, in the order of the table MethodDef.
    slots: Vec<Vec<Slot>>,
}

impl<'a> Model for FileUnits<'a> {
    ghost use Rattle.unit_builder.specs.FileSets.{FileSet};
    ghost use Rattle.unit_builder.specs.Sources.{files_of, set_of};
    ghost use Rattle.unit_builder.specs.Slots.{AreAllSlots};

    ghost Value = { FileSet };

    ghost view = { λ units. set_of units.sources };

    ghost invariant = { λ units. AreAllSlots (files_of units.sources) units.slots.items };
}

impl<'a> FileUnits<'a> {
    /// The units of an assembly alone, the file of list index 0. Nothing is read yet.
    pub fn alone(alloc: Global, assembly: &'a Assembly<'a>) -> Result<FileUnits<'a>, NoMemory>
        ensures { IfOk result (λ units. units ≡ Alone assembly.now) }
    {
        let mut slots = Vec::new(alloc);
        slots.push(fresh_slots(alloc, assembly)?)?;
        Ok(FileUnits {
            sources: Sources::One(assembly),
            slots,
        })
    }

    /// The units of linked assemblies. Nothing is read yet.
    pub fn linked(alloc: Global, links: &'a Links<'a>) -> Result<FileUnits<'a>, NoMemory>
        ensures { IfOk result (λ units. units ≡ Several links.now) }
    {
        let slots = all_fresh(alloc, links)?;
        Ok(FileUnits {
            sources: Sources::Linked(links),
            slots,
        })
    }

    /// The methods of the file of a list index, in the order of the table MethodDef.
    pub fn methods(&self, file: u32) -> &'a [MethodRow]
        requires { file < (files_in self.now).count }
        ensures methods { result.now ≡ methods_of ((files_in self.now).bytes file) }
        ensures accepted { FirstBroken ((files_in self.now).bytes file) ≡ None }
    {
        self.sources.assembly(file).methods()
    }

    /// Returns what comes of the method of an index in the file of a list index, both counted from 0: its unit, or the
    /// first reason why it is not analysed.
    ///
    /// Cost: what its code and the code of its callees take to be read, where nobody asked for them before; and besides
    /// the passes that find kinds. The unit takes the instructions with it: who asks for the same unit again pays for
    /// the code again.
    pub fn outcome(&mut self, alloc: Global, file: u32, index: usize) -> Result<Outcome, NoMemory>
        requires file { file < (files_in self.old).count }
        requires there { index < length (methods_of ((files_in self.old).bytes file)) }
        ensures same { self.new ≡ self.old }
        ensures value { (method : MethodRow) → slice_get (methods_of ((files_in self.old).bytes file)) index ≡ Some method
            → IfOk result (λ outcome. outcome ≡ outcome_in (scope_in (files_in self.old) file) method) }
        ensures unit { IfOk result (λ outcome. IfAnalysed outcome IsUnit) }
    {
        let method = &self.methods(file)[index];
        outcome_at(alloc, &self.sources, file, &mut self.slots, index, method)
    }

    /// The keys of the methods that are called in the body of the analysed method of an index in the file of a list
    /// index, each once, in order of first use. A key is the list index of the file, above the 32 bits of the token. Of
    /// a method that is not analysed no contract tells what comes.
    ///
    /// Cost: what the method's own code takes to be read, where nobody asked for it before; it is then kept for
    /// `outcome`. The keys are copied.
    pub fn callees(&mut self, alloc: Global, file: u32, index: usize) -> Result<Vec<u64>, NoMemory>
        requires file { file < (files_in self.old).count }
        requires there { index < length (methods_of ((files_in self.old).bytes file)) }
        ensures same { self.new ≡ self.old }
        ensures value { (method : MethodRow) (unit : MethodUnit) → slice_get (methods_of ((files_in self.old).bytes file)) index ≡ Some method
            → outcome_in (scope_in (files_in self.old) file) method ≡ Analysed unit
            → IfOk result (λ keys. keys.items ≡ callee_keys (scope_in (files_in self.old) file) method) }
    {
        let method = &self.methods(file)[index];
        callees_of(alloc, &self.sources, file, method, &mut self.slots, index)
    }
}
