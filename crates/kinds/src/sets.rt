// The fixed sets: the constants of type TokenSet in the grammar's files, the empty set, the sets behind the tests of
// syntax_kind.rt, and the kinds that a function lists in a test of its own. Written by tools/lists; ./check compares it with the source.
ghost use Rattle.std.specs.Prelude.{◌≡◌, length};
ghost use Rattle.kinds.specs.Membership.{held, once, one_of};
ghost use Rattle.kinds.specs.Sets.{kinds_of};

use crate::listings;
use crate::token_set::TokenSet;

// A fixed set's name. ExprFirst is LHS_FIRST too, which the crate gives that second name.
#[derive(Clone, Copy)]
pub enum Fixed {
    Empty,
    PathFirst,
    LiteralFirst,
    TimingLiteralFirst,
    AtomExprFirst,
    ExprRecoverySet,
    ExprFirst,
    PatternFirst,
    TypeFirst,
    ParamFirst,
    ItemRecoverySet,
    ScalarTypes,
    ClassicalTypes,
    QuantumTypes,
    Types,
    Permitted,
    QubitFirst,
    PrefixOps,
    CastNext,
    Assignable,
    Unindexed,
    ArrayBases,
    NoIntegers,
}

// A fixed set's words.
pub fn set_of(set: Fixed) -> TokenSet
    ensures { held result ≡ one_of (kinds_of set) }
{
    match set {
        Fixed::Empty => TokenSet {
            words: [0x0, 0x0, 0x0, 0x0],
        },
        Fixed::PathFirst => TokenSet {
            words: [0x40000800, 0x18000000000000, 0x0, 0x0],
        },
        Fixed::LiteralFirst => TokenSet {
            words: [0x0, 0x1fe00000000, 0x0, 0x0],
        },
        Fixed::TimingLiteralFirst => TokenSet {
            words: [0x0, 0x1800000000, 0x0, 0x0],
        },
        Fixed::AtomExprFirst => TokenSet {
            words: [0x40080aa0, 0x1801ffe00055ae, 0x0, 0x0],
        },
        Fixed::ExprRecoverySet => TokenSet {
            words: [0x440, 0x0, 0x0, 0x0],
        },
        Fixed::ExprFirst => TokenSet {
            words: [0x28462c0aa0, 0x1801ffe00055ae, 0x0, 0x0],
        },
        Fixed::PatternFirst => TokenSet {
            words: [0x2046040a20, 0x1801fe00000028, 0x0, 0x0],
        },
        Fixed::TypeFirst => TokenSet {
            words: [0x842240a20, 0x18000000000010, 0x0, 0x0],
        },
        Fixed::ParamFirst => TokenSet {
            words: [0x2846240a20, 0x1801fe00000038, 0x0, 0x0],
        },
        Fixed::ItemRecoverySet => TokenSet {
            words: [0x7d80000000000008, 0x65, 0x0, 0x0],
        },
        Fixed::ScalarTypes => TokenSet {
            words: [0x0, 0x3fe0000000000, 0x0, 0x0],
        },
        Fixed::ClassicalTypes => TokenSet {
            words: [0x0, 0x3fe0010000000, 0x0, 0x0],
        },
        Fixed::QuantumTypes => TokenSet {
            words: [0x0, 0x4000000, 0x2000000000000000, 0x0],
        },
        Fixed::Types => TokenSet {
            words: [0x0, 0x3fe0014000000, 0x2000000000000000, 0x0],
        },
        Fixed::Permitted => TokenSet {
            words: [0xff80002947fffff8, 0x19fffffffffffff, 0x0, 0x0],
        },
        Fixed::QubitFirst => TokenSet {
            words: [0x0, 0x18000000000000, 0x0, 0x0],
        },
        Fixed::PrefixOps => TokenSet {
            words: [0x2800008000, 0x0, 0x0, 0x0],
        },
        Fixed::CastNext => TokenSet {
            words: [0x220, 0x0, 0x0, 0x0],
        },
        Fixed::Assignable => TokenSet {
            words: [0x0, 0x0, 0xc00000000000000, 0x0],
        },
        Fixed::Unindexed => TokenSet {
            words: [0x0, 0x0, 0x2000000200000040, 0x0],
        },
        Fixed::ArrayBases => TokenSet {
            words: [0x0, 0x2be0000000000, 0x0, 0x0],
        },
        Fixed::NoIntegers => TokenSet {
            words: [0x0, 0x1f000000000, 0x0, 0x0],
        },
    }
}

impl Fixed {
    // Whether the set has the kind. The set that is asked at each operand is told from the others here: only so is the code that asks it compiled
    // into its callers (docs/SPEED.md).
    pub fn has(self, kind: u16) -> bool
        ensures { result ≡ one_of (kinds_of self) kind }
    {
        match self {
            Fixed::PrefixOps => listings::in_prefix_ops(kind),
            _ => self.listed(kind),
        }
    }

    // Whether the listing of the set has the kind.
    pub fn listed(self, kind: u16) -> bool
        ensures { result ≡ one_of (kinds_of self) kind }
    {
        match self {
            Fixed::Empty => false,
            Fixed::PathFirst => listings::in_path_first(kind),
            Fixed::LiteralFirst => listings::in_literal_first(kind),
            Fixed::TimingLiteralFirst => listings::in_timing_literal_first(kind),
            Fixed::AtomExprFirst => listings::in_atom_expr_first(kind),
            Fixed::ExprRecoverySet => listings::in_expr_recovery_set(kind),
            Fixed::ExprFirst => listings::in_expr_first(kind),
            Fixed::PatternFirst => listings::in_pattern_first(kind),
            Fixed::TypeFirst => listings::in_type_first(kind),
            Fixed::ParamFirst => listings::in_param_first(kind),
            Fixed::ItemRecoverySet => listings::in_item_recovery_set(kind),
            Fixed::ScalarTypes => listings::in_scalar_types(kind),
            Fixed::ClassicalTypes => listings::in_classical_types(kind),
            Fixed::QuantumTypes => listings::in_quantum_types(kind),
            Fixed::Types => listings::in_types(kind),
            Fixed::Permitted => listings::in_permitted(kind),
            Fixed::QubitFirst => listings::in_qubit_first(kind),
            Fixed::PrefixOps => listings::in_prefix_ops(kind),
            Fixed::CastNext => listings::in_cast_next(kind),
            Fixed::Assignable => listings::in_assignable(kind),
            Fixed::Unindexed => listings::in_unindexed(kind),
            Fixed::ArrayBases => listings::in_array_bases(kind),
            Fixed::NoIntegers => listings::in_no_integers(kind),
        }
    }

    // How many kinds the set has: the ones of its words, which are as many as the kinds listed.
    pub fn count(self) -> u32
        ensures { result ≡ length (once (kinds_of self)) }
    {
        set_of(self).count()
    }
}
