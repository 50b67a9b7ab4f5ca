// What the crate tells of a kind by a test: the tests of src/syntax_kind/syntax_kind_enum.rs and of src/grammar.rs that the
// grammar calls, and whether a kind may stand in a token list.
ghost use Rattle.std.specs.Prelude.{◌≡◌};
ghost use Rattle.kinds.specs.Membership.{one_of};
ghost use Rattle.kinds.specs.Sets.{SCALAR-TYPES, CLASSICAL-TYPES, QUANTUM-TYPES, TYPES, PERMITTED};

use crate::sets::Fixed;

pub fn is_scalar_type(kind: u16) -> bool
    ensures { result ≡ one_of SCALAR-TYPES kind }
{
    Fixed::ScalarTypes.listed(kind)
}

pub fn is_classical_type(kind: u16) -> bool
    ensures { result ≡ one_of CLASSICAL-TYPES kind }
{
    Fixed::ClassicalTypes.listed(kind)
}

pub fn is_quantum_type(kind: u16) -> bool
    ensures { result ≡ one_of QUANTUM-TYPES kind }
{
    Fixed::QuantumTypes.listed(kind)
}

pub fn is_type(kind: u16) -> bool
    ensures { result ≡ one_of TYPES kind }
{
    Fixed::Types.listed(kind)
}

// Whether lexing can push the kind into an Input: refusal 4 is given for any other.
pub fn permitted(kind: u16) -> bool
    ensures { result ≡ one_of PERMITTED kind }
{
    Fixed::Permitted.listed(kind)
}
