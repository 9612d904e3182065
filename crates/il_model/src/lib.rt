//! The words of the language: plain types of an Instruction List program (IEC 61131-3:2003, 3.2), its tables of
//! operators, types and codes, and the definitions that all other crates cite: values, operators, names, typing, the
//! image's spelling. Of this repository it uses il_real, and il_values, whose names it exports too.
//!
//! ```rust
//! use il_model::{Op, Stop, Value, operate};
//!
//! assert_eq!(rt; operate(Op::Add, Value::Int(2), Value::Int(3)), Some(Ok(Value::Int(5))));
//! assert_eq!(rt; operate(Op::Add, Value::Int(32767), Value::Int(1)), Some(Err(Stop::Overflow)));
//! ```
//!
//! Proved: each table of the code is its definition. Each code is read back as what it was written for, and the two
//! words of a double word as the value that they were made of; `literal_from` gives exactly the value of a literal.
//! `check_types` finds no fault exactly where a program is typed, which a relation says that names none (`know_typed`,
//! `specs/Typing`), else it tells the fault of the least instruction, and which that is is a law too
//! (`the_first_fault_is_told`). A program has at most one typed program (`settling`).
//!
//! Only tested: nothing; rows of `tests_rows` show it at work.
#![tactic(auto)]

mod arguments;
mod budget;
mod capacity;
mod cells;
mod check;
mod coded_operand;
mod codes;
mod command;
mod constant_table;
mod dialect;
mod double;
mod duration;
mod faulty;
mod fetched;
mod image_bytes;
mod indexed;
mod kind;
mod limits;
mod literal;
mod location;
mod location_table;
mod name;
mod program;
mod resolve;
mod settle;
mod slot;
mod snapshot;
mod typing;
mod words;
mod written;

pub use arguments::argument_literal;
pub use budget::Budget;
pub use cells::Cells;
pub use cells::InImage;
pub use cells::OutImage;
pub use check::Types;
pub use check::check as check_types;
pub use check::know_typed;
pub use check::the_first_fault_is_told;
pub use coded_operand::CodedOperand;
pub use coded_operand::FIRST_CONSTANT;
pub use codes::MAGIC;
pub use codes::Version;
pub use codes::declared_code;
pub use codes::initial_of;
pub use codes::is_formed;
pub use codes::is_passed;
pub use codes::is_pointless;
pub use codes::is_type;
pub use codes::length_in;
pub use codes::letters_of;
pub use codes::location_code;
pub use codes::modifier_code;
pub use codes::name_version;
pub use codes::op_code;
pub use codes::op_in;
pub use codes::op_of;
pub use codes::plain_code;
pub use codes::retained_in;
pub use codes::side_code;
pub use codes::side_of;
pub use codes::type_code;
pub use codes::type_in;
pub use codes::type_of;
pub use codes::version_with;
pub use command::Answer;
pub use command::Command;
pub use command::Refusal;
pub use constant_table::Constants;
pub use dialect::Dialect;
pub use double::seen_as;
pub use double::word_value;
pub use double::words_of;
pub use faulty::faulty_word;
pub use fetched::Deferred;
pub use fetched::Fetched;
pub use fetched::Passed;
pub use fetched::Source;
pub use il_values::Function;
pub use il_values::Modifier;
pub use il_values::Op;
pub use il_values::Shift;
pub use il_values::Stop;
pub use il_values::Ty;
pub use il_values::Unbounded;
pub use il_values::Value;
pub use il_values::calculate;
pub use il_values::capital;
pub use il_values::function_from;
pub use il_values::halves;
pub use il_values::hex_word;
pub use il_values::is_spelled;
pub use il_values::long_divided;
pub use il_values::long_rest;
pub use il_values::make;
pub use il_values::make_bare;
pub use il_values::operate;
pub use il_values::real_within;
pub use il_values::reals;
pub use il_values::truths;
pub use il_values::within;
pub use image_bytes::ImageBytes;
pub use image_bytes::is_long_image;
pub use image_bytes::is_short_image;
pub use indexed::IndexedProgram;
pub use kind::BlockKind;
pub use kind::Field;
pub use limits::BITS;
pub use limits::EARLIER_INSTRUCTIONS;
pub use limits::LONGEST_DOTTED_NAME;
pub use limits::LONGEST_NAME;
pub use limits::MOST_IMAGE_BYTES;
pub use limits::MOST_IMAGE_WORDS;
pub use limits::MOST_INSTANCES;
pub use limits::MOST_INSTRUCTIONS;
pub use limits::MOST_OPEN_PARENTHESES;
pub use limits::MOST_VARIABLES;
pub use limits::MOST_WORDS;
pub use limits::SHORT_IMAGE_BYTES;
pub use limits::WORDS;
pub use literal::Literal;
pub use location::dot;
pub use location::extended_location as extended_location_from;
pub use location::location as location_from;
pub use location_table::is_overlapping;
pub use location_table::put_code;
pub use name::Name;
pub use name::first_part;
pub use name::has_dot;
pub use name::is_lawful_name;
pub use name::is_reserved;
pub use name::is_well_spelled;
pub use name::split_last;
pub use name::stands_under;
pub use name::under;
pub use program::Area;
pub use program::Argument;
pub use program::Arguments;
pub use program::DoubleType;
pub use program::Instance;
pub use program::Instr;
pub use program::Loc;
pub use program::Operand;
pub use program::Place;
pub use program::Program;
pub use program::Side;
pub use program::Variable;
pub use resolve::kind_of;
pub use resolve::loc_type;
pub use settle::settling;
pub use slot::Slot;
pub use snapshot::ForcedSlot;
pub use snapshot::SavedInstance;
pub use snapshot::SavedPhase;
pub use snapshot::Snapshot;
pub use typing::Effect;
pub use typing::Held;
pub use typing::OperandKind;
pub use typing::TypeFault;
pub use typing::row_of;
pub use words::Mnemonic;
pub use words::mnemonic_from;
pub use written::extended_literal as extended_literal_from;
pub use written::literal as literal_from;
