//! The answer to `unit FILE`.

#![tactic(auto, using(cc_base::proofs::SinkLemmas::sinks, cc_base::proofs::CountLemmas::counts, answer_lines::proofs::LineLemmas::puts_none))]

ghost use Rattle.std.specs.Prelude.{◌≡◌, ◌<◌, [], ◌∷◌, length, IfOk};
ghost use Rattle.check_driver.specs.Asked.{unit_asked, unit_file_asked};
ghost use Rattle.check_driver.specs.Expected.{unit_answer, unit_file_answer};
ghost use Rattle.check_driver.specs.NothingOr.{NothingOr};
ghost use Rattle.check_driver.specs.ProvedUnit.{AreSpelled};
ghost use Rattle.answer_lines.specs.Outcome.{Gives};
ghost use Rattle.assembly_reports.specs.ReportText.{unit_report, unit_verdicts};
ghost use Rattle.invariant_checker.specs.Counts.{all_proved};
ghost use Rattle.answer_lines.specs.Writing.{Writes, change_of};
ghost use Rattle.method_unit.specs.UnitFile.{first_unit_fault};
ghost use Rattle.method_unit.specs.Units.{IsUnit};
ghost use Rattle.unit_form.specs.Spelling.{unit_bytes};
ghost use Rattle.unit_verdicts.specs.Asked.{Asks};

use answer_lines::{Interrupt, answer_refused, put_lines};
use assembly_answers::unit_fault_text;
use assembly_reports::unit_lines;
use cc_base::{READ_LIMIT, Sink};
use cil_model::MAX_FILE_BYTES;
use invariant_checker::all_proved;
use method_unit::{UnitRefusal, read_unit};
use stack_typer::TypedUnit;
use std::alloc::Global;
use unit_verdicts::{find_flow, judge_flow};
use widening_engine::Finder;

/// Puts the report of a unit, and returns whether the unit is proved.
fn put_report<O: Sink, D: Finder>(
    alloc: Global,
    unit: TypedUnit,
    out: &mut O,
    finder: &mut D,
) -> Result<bool, Interrupt>
    requires { IsUnit unit }
    ensures proved { IfOk result (λ proved. proved ≡ all_proved (unit_verdicts unit)) }
    ensures written { Writes result (change_of O.written O.puts O.faults out.old out.new) (unit_report unit) }
    ensures asked { Asks (unit_bytes unit ∷ []) result (D.asked finder.old) (D.asked finder.new) }
{
    let code = find_flow(alloc, unit)?;
    let found = judge_flow(alloc, &code, false, finder)?;
    let proved = all_proved(&found.verdicts);
    let lines = unit_lines(alloc, code.unit, &found.verdicts)?;
    put_lines(alloc, out, &lines)?;
    Ok(proved)
}

/// Answers `unit FILE` for the bytes of a file that is not too large.
fn answer_unit<O: Sink, E: Sink, D: Finder>(
    alloc: Global,
    name: &[u8],
    bytes: &[u8],
    out: &mut O,
    err: &mut E,
    finder: &mut D,
) -> Result<u8, Interrupt>
    requires { length bytes.now < READ_LIMIT }
    ensures answer { Gives (unit_answer name.now bytes.now (first_unit_fault bytes.now)) result
        (change_of O.written O.puts O.faults out.old out.new) (change_of E.written E.puts E.faults err.old err.new) }
    ensures asked { Asks (unit_asked bytes.now (first_unit_fault bytes.now)) result (D.asked finder.old) (D.asked finder.new) }
    ensures spelled { NothingOr (O.written out.old) (O.written out.new) (AreSpelled bytes.now) }
{
    match read_unit(alloc, bytes) {
        Err(UnitRefusal::NoMemory) => Err(Interrupt::NoMemory),
        Err(UnitRefusal::Bad(fault)) => {
            answer_refused(alloc, name, unit_fault_text(fault), fault.at(), err)
        }
        Ok(unit) => {
            let proved = put_report(alloc, unit, out, finder)?;
            Ok(u8::from(!proved))
        }
    }
}

/// Answers `unit FILE` for what was read, at most `READ_LIMIT` bytes.
pub fn answer_unit_file<O: Sink, E: Sink, D: Finder>(
    alloc: Global,
    name: &[u8],
    bytes: &[u8],
    out: &mut O,
    err: &mut E,
    finder: &mut D,
) -> Result<u8, Interrupt>
    ensures answer { Gives (unit_file_answer name.now bytes.now) result
        (change_of O.written O.puts O.faults out.old out.new) (change_of E.written E.puts E.faults err.old err.new) }
    ensures asked { Asks (unit_file_asked bytes.now) result (D.asked finder.old) (D.asked finder.new) }
    ensures spelled { NothingOr (O.written out.old) (O.written out.new) (AreSpelled bytes.now) }
{
    if bytes.len() >= READ_LIMIT {
        return answer_refused(alloc, name, b"file too large", MAX_FILE_BYTES, err);
    }
    answer_unit(alloc, name, bytes, out, err, finder)
}
