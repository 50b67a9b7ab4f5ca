// The kinds of src/syntax_kind/syntax_kind_enum.rs, each under its name there: its number is its place in that enum.
// Written by tools/lists; ./check compares it with the source.
// Stays (C interface): numbers, which C lends and reads; each function that takes a kind says what it makes of every number.
pub const TOMBSTONE: u16 = 0;

pub const EOF: u16 = 1;

pub const DOUBLE_PLUS: u16 = 2;

pub const SEMICOLON: u16 = 3;

pub const COMMA: u16 = 4;

pub const L_PAREN: u16 = 5;

pub const R_PAREN: u16 = 6;

pub const L_CURLY: u16 = 7;

pub const R_CURLY: u16 = 8;

pub const L_BRACK: u16 = 9;

pub const R_BRACK: u16 = 10;

pub const L_ANGLE: u16 = 11;

pub const R_ANGLE: u16 = 12;

pub const AT: u16 = 13;

pub const POUND: u16 = 14;

pub const TILDE: u16 = 15;

pub const QUESTION: u16 = 16;

pub const DOLLAR: u16 = 17;

pub const AMP: u16 = 18;

pub const PIPE: u16 = 19;

pub const PLUS: u16 = 20;

pub const STAR: u16 = 21;

pub const SLASH: u16 = 22;

pub const CARET: u16 = 23;

pub const PERCENT: u16 = 24;

pub const UNDERSCORE: u16 = 25;

pub const DOT: u16 = 26;

pub const DOT2: u16 = 27;

pub const DOT3: u16 = 28;

pub const DOT2EQ: u16 = 29;

pub const COLON: u16 = 30;

pub const COLON2: u16 = 31;

pub const EQ: u16 = 32;

pub const EQ2: u16 = 33;

pub const FAT_ARROW: u16 = 34;

pub const BANG: u16 = 35;

pub const NEQ: u16 = 36;

pub const MINUS: u16 = 37;

pub const THIN_ARROW: u16 = 38;

pub const LTEQ: u16 = 39;

pub const GTEQ: u16 = 40;

pub const PLUSEQ: u16 = 41;

pub const MINUSEQ: u16 = 42;

pub const PIPEEQ: u16 = 43;

pub const AMPEQ: u16 = 44;

pub const CARETEQ: u16 = 45;

pub const SLASHEQ: u16 = 46;

pub const STAREQ: u16 = 47;

pub const PERCENTEQ: u16 = 48;

pub const AMP2: u16 = 49;

pub const PIPE2: u16 = 50;

pub const SHL: u16 = 51;

pub const SHR: u16 = 52;

pub const SHLEQ: u16 = 53;

pub const SHREQ: u16 = 54;

pub const O_P_E_N_Q_A_S_M_KW: u16 = 55;

pub const INCLUDE_KW: u16 = 56;

pub const PRAGMA_KW: u16 = 57;

pub const DEF_KW: u16 = 58;

pub const DEFCALGRAMMAR_KW: u16 = 59;

pub const CAL_KW: u16 = 60;

pub const DEFCAL_KW: u16 = 61;

pub const GATE_KW: u16 = 62;

pub const DELAY_KW: u16 = 63;

pub const RESET_KW: u16 = 64;

pub const MEASURE_KW: u16 = 65;

pub const LET_KW: u16 = 66;

pub const BOX_KW: u16 = 67;

pub const EXTERN_KW: u16 = 68;

pub const CONST_KW: u16 = 69;

pub const BARRIER_KW: u16 = 70;

pub const GPHASE_KW: u16 = 71;

pub const IF_KW: u16 = 72;

pub const ELSE_KW: u16 = 73;

pub const FOR_KW: u16 = 74;

pub const IN_KW: u16 = 75;

pub const WHILE_KW: u16 = 76;

pub const CONTINUE_KW: u16 = 77;

pub const RETURN_KW: u16 = 78;

pub const BREAK_KW: u16 = 79;

pub const END_KW: u16 = 80;

pub const SWITCH_KW: u16 = 81;

pub const CASE_KW: u16 = 82;

pub const DEFAULT_KW: u16 = 83;

pub const INPUT_KW: u16 = 84;

pub const OUTPUT_KW: u16 = 85;

pub const READONLY_KW: u16 = 86;

pub const MUTABLE_KW: u16 = 87;

pub const QREG_KW: u16 = 88;

pub const CREG_KW: u16 = 89;

pub const QUBIT_KW: u16 = 90;

pub const VOID_KW: u16 = 91;

pub const ARRAY_KW: u16 = 92;

pub const CTRL_KW: u16 = 93;

pub const NEGCTRL_KW: u16 = 94;

pub const INV_KW: u16 = 95;

pub const POW_KW: u16 = 96;

pub const FALSE_KW: u16 = 97;

pub const TRUE_KW: u16 = 98;

pub const INT_NUMBER: u16 = 99;

pub const FLOAT_NUMBER: u16 = 100;

pub const CHAR: u16 = 101;

pub const BYTE: u16 = 102;

pub const STRING: u16 = 103;

pub const BIT_STRING: u16 = 104;

pub const FLOAT_TY: u16 = 105;

pub const INT_TY: u16 = 106;

pub const UINT_TY: u16 = 107;

pub const COMPLEX_TY: u16 = 108;

pub const BOOL_TY: u16 = 109;

pub const BIT_TY: u16 = 110;

pub const DURATION_TY: u16 = 111;

pub const STRETCH_TY: u16 = 112;

pub const ANGLE_TY: u16 = 113;

pub const ERROR: u16 = 114;

pub const IDENT: u16 = 115;

pub const HARDWAREIDENT: u16 = 116;

pub const WHITESPACE: u16 = 117;

pub const COMMENT: u16 = 118;

pub const PRAGMA: u16 = 119;

pub const ANNOTATION: u16 = 120;

pub const SOURCE_FILE: u16 = 121;

pub const GATE: u16 = 122;

pub const DEF_CAL: u16 = 123;

pub const DELAY_STMT: u16 = 124;

pub const CAL: u16 = 125;

pub const DEF_CAL_GRAMMAR: u16 = 126;

pub const MEASURE: u16 = 127;

pub const BARRIER: u16 = 128;

pub const DEF: u16 = 129;

pub const RESET: u16 = 130;

pub const CONST: u16 = 131;

pub const PRAGMA_STATEMENT: u16 = 132;

pub const ANNOTATION_STATEMENT: u16 = 133;

pub const TIMING_LITERAL: u16 = 134;

pub const TUPLE_EXPR: u16 = 135;

pub const ARRAY_EXPR: u16 = 136;

pub const PAREN_EXPR: u16 = 137;

pub const IF_STMT: u16 = 138;

pub const WHILE_STMT: u16 = 139;

pub const FOR_STMT: u16 = 140;

pub const FOR_ITERABLE: u16 = 141;

pub const END_STMT: u16 = 142;

pub const CONTINUE_STMT: u16 = 143;

pub const BREAK_STMT: u16 = 144;

pub const BLOCK_EXPR: u16 = 145;

pub const STMT_LIST: u16 = 146;

pub const RETURN_EXPR: u16 = 147;

pub const LET_STMT: u16 = 148;

pub const BOX_EXPR: u16 = 149;

pub const SWITCH_CASE_STMT: u16 = 150;

pub const CASE_EXPR: u16 = 151;

pub const CALL_EXPR: u16 = 152;

pub const GATE_CALL_EXPR: u16 = 153;

pub const MODIFIED_GATE_CALL_EXPR: u16 = 154;

pub const G_PHASE_CALL_EXPR: u16 = 155;

pub const CAST_EXPRESSION: u16 = 156;

pub const INDEX_EXPR: u16 = 157;

pub const PREFIX_EXPR: u16 = 158;

pub const RANGE_EXPR: u16 = 159;

pub const BIN_EXPR: u16 = 160;

pub const LITERAL: u16 = 161;

pub const NAME: u16 = 162;

pub const EXPR_STMT: u16 = 163;

pub const TYPE: u16 = 164;

pub const PARAM_LIST: u16 = 165;

pub const TYPED_PARAM_LIST: u16 = 166;

pub const QUBIT_LIST: u16 = 167;

pub const FILE_PATH: u16 = 168;

pub const PARAM: u16 = 169;

pub const TYPED_PARAM: u16 = 170;

pub const ARG_LIST: u16 = 171;

pub const VERSION: u16 = 172;

pub const VERSION_STRING: u16 = 173;

pub const INCLUDE: u16 = 174;

pub const DECLARATION: u16 = 175;

pub const DESIGNATOR: u16 = 176;

pub const SCALAR_TYPE: u16 = 177;

pub const ARRAY_TYPE: u16 = 178;

pub const QUBIT_TYPE: u16 = 179;

pub const EXPRESSION_LIST: u16 = 180;

pub const RETURN_SIGNATURE: u16 = 181;

pub const SET_EXPRESSION: u16 = 182;

pub const ALIAS_DECLARATION_STATEMENT: u16 = 183;

pub const INDEX_OPERATOR: u16 = 184;

pub const INDEX_KIND: u16 = 185;

pub const INDEXED_IDENTIFIER: u16 = 186;

pub const IDENTIFIER: u16 = 187;

pub const ARRAY_LITERAL: u16 = 188;

pub const HARDWARE_QUBIT: u16 = 189;

pub const CLASSICAL_DECLARATION_STATEMENT: u16 = 190;

pub const ASSIGNMENT_STMT: u16 = 191;

pub const I_O_DECLARATION_STATEMENT: u16 = 192;

pub const GATE_OPERAND: u16 = 193;

pub const MEASURE_EXPRESSION: u16 = 194;

pub const OLD_STYLE_DECLARATION_STATEMENT: u16 = 195;

pub const QUANTUM_DECLARATION_STATEMENT: u16 = 196;

pub const INV_MODIFIER: u16 = 197;

pub const POW_MODIFIER: u16 = 198;

pub const CTRL_MODIFIER: u16 = 199;

pub const NEG_CTRL_MODIFIER: u16 = 200;

pub const MODIFIER: u16 = 201;

pub const __LAST: u16 = 202;
