//! The columns that a reader of assemblies names, counted from 0. Each name begins with its table's.

/// ResolutionScope of TypeRef (II.22.38), a coded index.
pub const TYPE_REF_SCOPE: u8 = 0;

/// TypeName of TypeRef, in the heap `#Strings`.
pub const TYPE_REF_NAME: u8 = 1;

/// TypeNamespace of TypeRef, in the heap `#Strings`.
pub const TYPE_REF_NAMESPACE: u8 = 2;

/// TypeName of TypeDef (II.22.37), in the heap `#Strings`.
pub const TYPE_DEF_NAME: u8 = 1;

/// TypeNamespace of TypeDef, in the heap `#Strings`.
pub const TYPE_DEF_NAMESPACE: u8 = 2;

/// MethodList of TypeDef: the row of MethodDef where the type's methods begin.
pub const TYPE_DEF_METHOD_LIST: u8 = 5;

/// RVA of MethodDef (II.22.26): the address of the method's body.
pub const METHOD_DEF_RVA: u8 = 0;

/// ImplFlags of MethodDef, two bytes.
pub const METHOD_DEF_IMPL_FLAGS: u8 = 1;

/// Flags of MethodDef, two bytes.
pub const METHOD_DEF_FLAGS: u8 = 2;

/// Name of MethodDef, in the heap `#Strings`.
pub const METHOD_DEF_NAME: u8 = 3;

/// Signature of MethodDef, in the heap `#Blob`.
pub const METHOD_DEF_SIGNATURE: u8 = 4;

/// Class of MemberRef (II.22.25), a coded index MemberRefParent.
pub const MEMBER_REF_CLASS: u8 = 0;

/// Name of MemberRef, in the heap `#Strings`.
pub const MEMBER_REF_NAME: u8 = 1;

/// Signature of MemberRef, in the heap `#Blob`.
pub const MEMBER_REF_SIGNATURE: u8 = 2;

/// Signature of StandAloneSig (II.22.36), in the heap `#Blob`.
pub const STAND_ALONE_SIG_SIGNATURE: u8 = 0;

/// Method of MethodSpec (II.22.29), a coded index MethodDefOrRef.
pub const METHOD_SPEC_METHOD: u8 = 0;

/// Instantiation of MethodSpec, in the heap `#Blob`.
pub const METHOD_SPEC_INSTANTIATION: u8 = 1;

/// Name of Assembly (II.22.2), in the heap `#Strings`.
pub const ASSEMBLY_NAME: u8 = 7;

/// Name of AssemblyRef (II.22.5), in the heap `#Strings`.
pub const ASSEMBLY_REF_NAME: u8 = 6;
