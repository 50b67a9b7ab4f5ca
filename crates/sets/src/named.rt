// The fixed sets, in the order of `Fixed`, with their names in the crate. Written by tools/lists; ./check compares it with the source.
use kinds::sets::Fixed;

pub static SETS: [(&str, Fixed); 23] = [
    ("EMPTY", Fixed::Empty),
    ("PATH_FIRST", Fixed::PathFirst),
    ("LITERAL_FIRST", Fixed::LiteralFirst),
    ("TIMING_LITERAL_FIRST", Fixed::TimingLiteralFirst),
    ("ATOM_EXPR_FIRST", Fixed::AtomExprFirst),
    ("EXPR_RECOVERY_SET", Fixed::ExprRecoverySet),
    ("EXPR_FIRST", Fixed::ExprFirst),
    ("PATTERN_FIRST", Fixed::PatternFirst),
    ("TYPE_FIRST", Fixed::TypeFirst),
    ("PARAM_FIRST", Fixed::ParamFirst),
    ("ITEM_RECOVERY_SET", Fixed::ItemRecoverySet),
    ("SCALAR_TYPES", Fixed::ScalarTypes),
    ("CLASSICAL_TYPES", Fixed::ClassicalTypes),
    ("QUANTUM_TYPES", Fixed::QuantumTypes),
    ("TYPES", Fixed::Types),
    ("PERMITTED", Fixed::Permitted),
    ("QUBIT_FIRST", Fixed::QubitFirst),
    ("PREFIX_OPS", Fixed::PrefixOps),
    ("CAST_NEXT", Fixed::CastNext),
    ("ASSIGNABLE", Fixed::Assignable),
    ("UNINDEXED", Fixed::Unindexed),
    ("ARRAY_BASES", Fixed::ArrayBases),
    ("NO_INTEGERS", Fixed::NoIntegers),
];
