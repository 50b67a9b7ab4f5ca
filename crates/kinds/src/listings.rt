// The kinds of each fixed set by name: `Fixed::has` goes by these tests. Each kind stands once, in the order of the crate's text (docs/SETS.md).
// Kinds that lie within 64 numbers are one match, others one for each 64 numbers: the compiler makes a test of one bit of either (docs/SPEED.md).
// Written by tools/lists; ./check compares it with the source.
#![tactic(auto, unfolding(crate::specs::Membership::one_of))]

ghost use Rattle.std.specs.Prelude.{◌≡◌};
ghost use Rattle.kinds.specs.Membership.{one_of};
ghost use Rattle.kinds.specs.Sets.{PATH-FIRST, LITERAL-FIRST, TIMING-LITERAL-FIRST, ATOM-EXPR-FIRST, EXPR-RECOVERY-SET, EXPR-FIRST, PATTERN-FIRST, TYPE-FIRST, PARAM-FIRST, ITEM-RECOVERY-SET, SCALAR-TYPES, CLASSICAL-TYPES, QUANTUM-TYPES, TYPES, PERMITTED, QUBIT-FIRST, PREFIX-OPS, CAST-NEXT, ASSIGNABLE, UNINDEXED, ARRAY-BASES, NO-INTEGERS};

use crate::syntax_kind_enum as k;

// PATH_FIRST (grammar/expressions/atom.rs): 4 kinds.
pub fn in_path_first(kind: u16) -> bool
    ensures { result ≡ one_of PATH-FIRST kind }
{
    let low = match kind {
        k::COLON => true,
        k::L_ANGLE => true,
        _ => false,
    };
    let high = match kind {
        k::IDENT => true,
        k::HARDWAREIDENT => true,
        _ => false,
    };
    low | high
}

// LITERAL_FIRST (grammar/expressions/atom.rs): 8 kinds.
pub fn in_literal_first(kind: u16) -> bool
    ensures { result ≡ one_of LITERAL-FIRST kind }
{
    match kind {
        k::BIT_STRING => true,
        k::BYTE => true,
        k::CHAR => true,
        k::FLOAT_NUMBER => true,
        k::INT_NUMBER => true,
        k::STRING => true,
        k::TRUE_KW => true,
        k::FALSE_KW => true,
        _ => false,
    }
}

// TIMING_LITERAL_FIRST (grammar/expressions/atom.rs): 2 kinds.
pub fn in_timing_literal_first(kind: u16) -> bool
    ensures { result ≡ one_of TIMING-LITERAL-FIRST kind }
{
    match kind {
        k::INT_NUMBER => true,
        k::FLOAT_NUMBER => true,
        _ => false,
    }
}

// ATOM_EXPR_FIRST (grammar/expressions/atom.rs): 29 kinds.
pub fn in_atom_expr_first(kind: u16) -> bool
    ensures { result ≡ one_of ATOM-EXPR-FIRST kind }
{
    let low = match kind {
        k::COLON => true,
        k::L_ANGLE => true,
        k::L_PAREN => true,
        k::L_CURLY => true,
        k::L_BRACK => true,
        k::PIPE => true,
        _ => false,
    };
    let high = match kind {
        k::BIT_STRING => true,
        k::BYTE => true,
        k::CHAR => true,
        k::FLOAT_NUMBER => true,
        k::INT_NUMBER => true,
        k::STRING => true,
        k::TRUE_KW => true,
        k::FALSE_KW => true,
        k::IDENT => true,
        k::HARDWAREIDENT => true,
        k::BOX_KW => true,
        k::CONST_KW => true,
        k::FOR_KW => true,
        k::IF_KW => true,
        k::LET_KW => true,
        k::RETURN_KW => true,
        k::WHILE_KW => true,
        k::MEASURE_KW => true,
        k::INV_KW => true,
        k::CTRL_KW => true,
        k::NEGCTRL_KW => true,
        k::POW_KW => true,
        k::GPHASE_KW => true,
        _ => false,
    };
    low | high
}

// EXPR_RECOVERY_SET (grammar/expressions/atom.rs): 2 kinds.
pub fn in_expr_recovery_set(kind: u16) -> bool
    ensures { result ≡ one_of EXPR-RECOVERY-SET kind }
{
    match kind {
        k::R_PAREN => true,
        k::R_BRACK => true,
        _ => false,
    }
}

// EXPR_FIRST (grammar/expressions.rs): 35 kinds.
pub fn in_expr_first(kind: u16) -> bool
    ensures { result ≡ one_of EXPR-FIRST kind }
{
    let low = match kind {
        k::COLON => true,
        k::L_ANGLE => true,
        k::L_PAREN => true,
        k::L_CURLY => true,
        k::L_BRACK => true,
        k::PIPE => true,
        k::AMP => true,
        k::STAR => true,
        k::BANG => true,
        k::DOT => true,
        k::MINUS => true,
        k::UNDERSCORE => true,
        _ => false,
    };
    let high = match kind {
        k::BIT_STRING => true,
        k::BYTE => true,
        k::CHAR => true,
        k::FLOAT_NUMBER => true,
        k::INT_NUMBER => true,
        k::STRING => true,
        k::TRUE_KW => true,
        k::FALSE_KW => true,
        k::IDENT => true,
        k::HARDWAREIDENT => true,
        k::BOX_KW => true,
        k::CONST_KW => true,
        k::FOR_KW => true,
        k::IF_KW => true,
        k::LET_KW => true,
        k::RETURN_KW => true,
        k::WHILE_KW => true,
        k::MEASURE_KW => true,
        k::INV_KW => true,
        k::CTRL_KW => true,
        k::NEGCTRL_KW => true,
        k::POW_KW => true,
        k::GPHASE_KW => true,
        _ => false,
    };
    low | high
}

// PATTERN_FIRST (grammar/params.rs): 20 kinds.
pub fn in_pattern_first(kind: u16) -> bool
    ensures { result ≡ one_of PATTERN-FIRST kind }
{
    let low = match kind {
        k::COLON => true,
        k::L_ANGLE => true,
        k::L_PAREN => true,
        k::L_BRACK => true,
        k::AMP => true,
        k::UNDERSCORE => true,
        k::MINUS => true,
        k::DOT => true,
        _ => false,
    };
    let high = match kind {
        k::BIT_STRING => true,
        k::BYTE => true,
        k::CHAR => true,
        k::FLOAT_NUMBER => true,
        k::INT_NUMBER => true,
        k::STRING => true,
        k::TRUE_KW => true,
        k::FALSE_KW => true,
        k::IDENT => true,
        k::HARDWAREIDENT => true,
        k::BOX_KW => true,
        k::CONST_KW => true,
        _ => false,
    };
    low | high
}

// TYPE_FIRST (grammar/params.rs): 11 kinds in 12 names.
pub fn in_type_first(kind: u16) -> bool
    ensures { result ≡ one_of TYPE-FIRST kind }
{
    let low = match kind {
        k::COLON => true,
        k::L_ANGLE => true,
        k::L_PAREN => true,
        k::L_BRACK => true,
        k::BANG => true,
        k::STAR => true,
        k::AMP => true,
        k::UNDERSCORE => true,
        _ => false,
    };
    let high = match kind {
        k::IDENT => true,
        k::HARDWAREIDENT => true,
        k::EXTERN_KW => true,
        _ => false,
    };
    low | high
}

// PARAM_FIRST (grammar/params.rs): 23 kinds in 32 names.
pub fn in_param_first(kind: u16) -> bool
    ensures { result ≡ one_of PARAM-FIRST kind }
{
    let low = match kind {
        k::COLON => true,
        k::L_ANGLE => true,
        k::L_PAREN => true,
        k::L_BRACK => true,
        k::AMP => true,
        k::UNDERSCORE => true,
        k::MINUS => true,
        k::DOT => true,
        k::BANG => true,
        k::STAR => true,
        _ => false,
    };
    let high = match kind {
        k::BIT_STRING => true,
        k::BYTE => true,
        k::CHAR => true,
        k::FLOAT_NUMBER => true,
        k::INT_NUMBER => true,
        k::STRING => true,
        k::TRUE_KW => true,
        k::FALSE_KW => true,
        k::IDENT => true,
        k::HARDWAREIDENT => true,
        k::BOX_KW => true,
        k::CONST_KW => true,
        k::EXTERN_KW => true,
        _ => false,
    };
    low | high
}

// ITEM_RECOVERY_SET (grammar/items.rs): 12 kinds.
pub fn in_item_recovery_set(kind: u16) -> bool
    ensures { result ≡ one_of ITEM-RECOVERY-SET kind }
{
    let low = match kind {
        k::GATE_KW => true,
        k::DEF_KW => true,
        k::DEFCAL_KW => true,
        k::DEFCALGRAMMAR_KW => true,
        k::INCLUDE_KW => true,
        k::CAL_KW => true,
        k::O_P_E_N_Q_A_S_M_KW => true,
        k::SEMICOLON => true,
        _ => false,
    };
    let high = match kind {
        k::RESET_KW => true,
        k::BARRIER_KW => true,
        k::CONST_KW => true,
        k::LET_KW => true,
        _ => false,
    };
    low | high
}

// SCALAR_TYPES (syntax_kind/syntax_kind_enum.rs, is_scalar_type): 9 kinds.
pub fn in_scalar_types(kind: u16) -> bool
    ensures { result ≡ one_of SCALAR-TYPES kind }
{
    match kind {
        k::FLOAT_TY => true,
        k::INT_TY => true,
        k::UINT_TY => true,
        k::COMPLEX_TY => true,
        k::BOOL_TY => true,
        k::BIT_TY => true,
        k::DURATION_TY => true,
        k::STRETCH_TY => true,
        k::ANGLE_TY => true,
        _ => false,
    }
}

// CLASSICAL_TYPES (grammar.rs, is_classical_type): 10 kinds.
pub fn in_classical_types(kind: u16) -> bool
    ensures { result ≡ one_of CLASSICAL-TYPES kind }
{
    match kind {
        k::FLOAT_TY => true,
        k::INT_TY => true,
        k::UINT_TY => true,
        k::COMPLEX_TY => true,
        k::BOOL_TY => true,
        k::BIT_TY => true,
        k::DURATION_TY => true,
        k::STRETCH_TY => true,
        k::ANGLE_TY => true,
        k::ARRAY_KW => true,
        _ => false,
    }
}

// QUANTUM_TYPES (grammar.rs, is_quantum_type): 2 kinds.
pub fn in_quantum_types(kind: u16) -> bool
    ensures { result ≡ one_of QUANTUM-TYPES kind }
{
    let low = match kind {
        k::QUBIT_KW => true,
        _ => false,
    };
    let high = match kind {
        k::HARDWARE_QUBIT => true,
        _ => false,
    };
    low | high
}

// TYPES (grammar.rs, is_type): 12 kinds.
pub fn in_types(kind: u16) -> bool
    ensures { result ≡ one_of TYPES kind }
{
    let low = match kind {
        k::FLOAT_TY => true,
        k::INT_TY => true,
        k::UINT_TY => true,
        k::COMPLEX_TY => true,
        k::BOOL_TY => true,
        k::BIT_TY => true,
        k::DURATION_TY => true,
        k::STRETCH_TY => true,
        k::ANGLE_TY => true,
        k::ARRAY_KW => true,
        k::QUBIT_KW => true,
        _ => false,
    };
    let high = match kind {
        k::HARDWARE_QUBIT => true,
        _ => false,
    };
    low | high
}

// PERMITTED (docs/KINDS.md): 92 kinds.
pub fn in_permitted(kind: u16) -> bool
    ensures { result ≡ one_of PERMITTED kind }
{
    let low = match kind {
        k::SEMICOLON => true,
        k::COMMA => true,
        k::L_PAREN => true,
        k::R_PAREN => true,
        k::L_CURLY => true,
        k::R_CURLY => true,
        k::L_BRACK => true,
        k::R_BRACK => true,
        k::L_ANGLE => true,
        k::R_ANGLE => true,
        k::AT => true,
        k::POUND => true,
        k::TILDE => true,
        k::QUESTION => true,
        k::DOLLAR => true,
        k::AMP => true,
        k::PIPE => true,
        k::PLUS => true,
        k::STAR => true,
        k::SLASH => true,
        k::CARET => true,
        k::PERCENT => true,
        k::UNDERSCORE => true,
        k::DOT => true,
        k::COLON => true,
        k::EQ => true,
        k::BANG => true,
        k::MINUS => true,
        k::O_P_E_N_Q_A_S_M_KW => true,
        k::INCLUDE_KW => true,
        k::PRAGMA_KW => true,
        k::DEF_KW => true,
        k::DEFCALGRAMMAR_KW => true,
        k::CAL_KW => true,
        k::DEFCAL_KW => true,
        k::GATE_KW => true,
        k::DELAY_KW => true,
        _ => false,
    };
    let high = match kind {
        k::RESET_KW => true,
        k::MEASURE_KW => true,
        k::LET_KW => true,
        k::BOX_KW => true,
        k::EXTERN_KW => true,
        k::CONST_KW => true,
        k::BARRIER_KW => true,
        k::GPHASE_KW => true,
        k::IF_KW => true,
        k::ELSE_KW => true,
        k::FOR_KW => true,
        k::IN_KW => true,
        k::WHILE_KW => true,
        k::CONTINUE_KW => true,
        k::RETURN_KW => true,
        k::BREAK_KW => true,
        k::END_KW => true,
        k::SWITCH_KW => true,
        k::CASE_KW => true,
        k::DEFAULT_KW => true,
        k::INPUT_KW => true,
        k::OUTPUT_KW => true,
        k::READONLY_KW => true,
        k::MUTABLE_KW => true,
        k::QREG_KW => true,
        k::CREG_KW => true,
        k::QUBIT_KW => true,
        k::VOID_KW => true,
        k::ARRAY_KW => true,
        k::CTRL_KW => true,
        k::NEGCTRL_KW => true,
        k::INV_KW => true,
        k::POW_KW => true,
        k::FALSE_KW => true,
        k::TRUE_KW => true,
        k::INT_NUMBER => true,
        k::FLOAT_NUMBER => true,
        k::CHAR => true,
        k::BYTE => true,
        k::STRING => true,
        k::BIT_STRING => true,
        k::FLOAT_TY => true,
        k::INT_TY => true,
        k::UINT_TY => true,
        k::COMPLEX_TY => true,
        k::BOOL_TY => true,
        k::BIT_TY => true,
        k::DURATION_TY => true,
        k::STRETCH_TY => true,
        k::ANGLE_TY => true,
        k::ERROR => true,
        k::IDENT => true,
        k::HARDWAREIDENT => true,
        k::PRAGMA => true,
        k::ANNOTATION => true,
        _ => false,
    };
    if kind < 64 { low } else { high }
}

// QUBIT_FIRST (grammar/expressions.rs, call_expr): 2 kinds.
pub fn in_qubit_first(kind: u16) -> bool
    ensures { result ≡ one_of QUBIT-FIRST kind }
{
    match kind {
        k::IDENT => true,
        k::HARDWAREIDENT => true,
        _ => false,
    }
}

// PREFIX_OPS (grammar/expressions.rs, lhs): 3 kinds.
pub fn in_prefix_ops(kind: u16) -> bool
    ensures { result ≡ one_of PREFIX-OPS kind }
{
    match kind {
        k::TILDE => true,
        k::BANG => true,
        k::MINUS => true,
        _ => false,
    }
}

// CAST_NEXT (grammar/expressions.rs, expr_bp): 2 kinds.
pub fn in_cast_next(kind: u16) -> bool
    ensures { result ≡ one_of CAST-NEXT kind }
{
    match kind {
        k::L_PAREN => true,
        k::L_BRACK => true,
        _ => false,
    }
}

// ASSIGNABLE (grammar/expressions.rs, expr_bp): 2 kinds.
pub fn in_assignable(kind: u16) -> bool
    ensures { result ≡ one_of ASSIGNABLE kind }
{
    match kind {
        k::IDENTIFIER => true,
        k::INDEXED_IDENTIFIER => true,
        _ => false,
    }
}

// UNINDEXED (grammar/expressions.rs, postfix_expr): 3 kinds.
pub fn in_unindexed(kind: u16) -> bool
    ensures { result ≡ one_of UNINDEXED kind }
{
    match kind {
        k::LITERAL => true,
        k::TIMING_LITERAL => true,
        k::HARDWARE_QUBIT => true,
        _ => false,
    }
}

// ARRAY_BASES (grammar/expressions.rs, array_type_spec): 7 kinds.
pub fn in_array_bases(kind: u16) -> bool
    ensures { result ≡ one_of ARRAY-BASES kind }
{
    match kind {
        k::INT_TY => true,
        k::UINT_TY => true,
        k::FLOAT_TY => true,
        k::COMPLEX_TY => true,
        k::ANGLE_TY => true,
        k::BOOL_TY => true,
        k::DURATION_TY => true,
        _ => false,
    }
}

// NO_INTEGERS (grammar/expressions.rs, designator): 5 kinds.
pub fn in_no_integers(kind: u16) -> bool
    ensures { result ≡ one_of NO-INTEGERS kind }
{
    match kind {
        k::FLOAT_NUMBER => true,
        k::BYTE => true,
        k::CHAR => true,
        k::STRING => true,
        k::BIT_STRING => true,
        _ => false,
    }
}
