//! The numbers of the tables that are named here or by a reader of assemblies (ECMA-335 II.22).

/// Module (II.22.30).
pub const MODULE: u8 = 0x00;

/// TypeRef (II.22.38).
pub const TYPE_REF: u8 = 0x01;

/// TypeDef (II.22.37).
pub const TYPE_DEF: u8 = 0x02;

/// Field (II.22.15).
pub const FIELD: u8 = 0x04;

/// MethodDef (II.22.26).
pub const METHOD_DEF: u8 = 0x06;

/// Param (II.22.33).
pub const PARAM: u8 = 0x08;

/// InterfaceImpl (II.22.23).
pub const INTERFACE_IMPL: u8 = 0x09;

/// MemberRef (II.22.25).
pub const MEMBER_REF: u8 = 0x0a;

/// DeclSecurity (II.22.11).
pub const DECL_SECURITY: u8 = 0x0e;

/// StandAloneSig (II.22.36).
pub const STAND_ALONE_SIG: u8 = 0x11;

/// Event (II.22.13).
pub const EVENT: u8 = 0x14;

/// Property (II.22.34).
pub const PROPERTY: u8 = 0x17;

/// ModuleRef (II.22.31).
pub const MODULE_REF: u8 = 0x1a;

/// TypeSpec (II.22.39).
pub const TYPE_SPEC: u8 = 0x1b;

/// Assembly (II.22.2).
pub const ASSEMBLY: u8 = 0x20;

/// AssemblyRef (II.22.5).
pub const ASSEMBLY_REF: u8 = 0x23;

/// File (II.22.19).
pub const FILE: u8 = 0x26;

/// ExportedType (II.22.14).
pub const EXPORTED_TYPE: u8 = 0x27;

/// ManifestResource (II.22.24).
pub const MANIFEST_RESOURCE: u8 = 0x28;

/// GenericParam (II.22.20).
pub const GENERIC_PARAM: u8 = 0x2a;

/// MethodSpec (II.22.29).
pub const METHOD_SPEC: u8 = 0x2b;

/// GenericParamConstraint (II.22.21).
pub const GENERIC_PARAM_CONSTRAINT: u8 = 0x2c;
