//! The bytes of a program.

ghost use Rattle.std.specs.Prelude.{◌≡◌, ◌≤◌, ◌++◌, OnOk, IfOk, length, count_by, is_some, [], slice_get, true, false};
ghost use Rattle.std.specs.Option.{option_and_then};
ghost use Rattle.il_assembler.specs.Walk.{constants_in, all_literals, settled_code, settled_passing_word};
ghost use Rattle.il_assembler.specs.Walk.{settled_instruction, settled_words, settled_bytes, HasFewArguments};
ghost use Rattle.il_assembler.specs.Walk.{addresses_from};
ghost use Rattle.std.specs.Int.{w8, w16, w32, w64, to_be_bytes, cast_unsigned};
ghost use Rattle.std.specs.List.{AllByRecursion, flat_map, list_all};
ghost use Rattle.il_values.specs.Values.{number_of};
ghost use Rattle.il_model.specs.Kinds.{field_number};
ghost use Rattle.il_model.specs.Marks.{with_mark, marks_from, words_in};
ghost use Rattle.il_model.specs.declared.coded_operand.CodedOperand.TheVariants as coded;
ghost use Rattle.il_model.specs.CodedOperands.{code_of};
ghost use Rattle.il_model.specs.declared.codes.Version.TheVariants as versions;
ghost use Rattle.il_model.specs.Image.{name_bytes, number_bytes, may_declare, may_keep, variable_bytes};
ghost use Rattle.il_model.specs.Image.{instance_bytes, mark_bytes, constant_bytes, numbered, coded_literal};
ghost use Rattle.il_model.specs.Image.{coded_field, number_or_unused, field_number_code, operand_code, coded_word};
ghost use Rattle.il_model.specs.Image.{counts_bytes};

use crate::constants::constants_of;
use il_model::{
    Argument, BlockKind, CodedOperand, Constants, FIRST_CONSTANT, IndexedProgram, Instance, Instr,
    MAGIC, MOST_INSTRUCTIONS, Name, Operand, Place, Value, Variable, Version, argument_literal,
    declared_code, location_code, modifier_code, op_code, side_code, type_code, version_with,
};
use std::alloc::{AllocError, Global};

fn put_u8(out: &mut Vec<u8>, n: usize) -> Result<(), AllocError>
    ensures { OnOk result (out.new.items ≡ out.old.items ++ to_be_bytes w8 n) }
{
    out.push((n % 256) as u8)?;
    Ok(())
}

fn put_u16(out: &mut Vec<u8>, n: usize) -> Result<(), AllocError>
    ensures { OnOk result (out.new.items ≡ out.old.items ++ to_be_bytes w16 n) }
{
    out.push((n / 256 % 256) as u8)?;
    out.push((n % 256) as u8)?;
    Ok(())
}

fn put_u32(out: &mut Vec<u8>, n: u32) -> Result<(), AllocError>
    ensures { OnOk result (out.new.items ≡ out.old.items ++ to_be_bytes w32 n) }
{
    out.extend_from_slice(&n.to_be_bytes())?;
    Ok(())
}

fn put_u64(out: &mut Vec<u8>, n: u64) -> Result<(), AllocError>
    ensures { OnOk result (out.new.items ≡ out.old.items ++ to_be_bytes w64 n) }
{
    out.extend_from_slice(&n.to_be_bytes())?;
    Ok(())
}

fn put_name(out: &mut Vec<u8>, name: &Name) -> Result<(), AllocError>
    ensures { OnOk result (out.new.items ≡ out.old.items ++ name_bytes name.now) }
{
    put_u8(out, name.bytes().len())?;
    out.extend_from_slice(name.bytes())?;
    Ok(())
}

/// The 32 bits of a value that images of the first version have.
fn short_bits(v: Value) -> u32
    requires { may_keep versions.One v ≡ true }
    ensures { result ≡ cast_unsigned w32 (number_of v) }
{
    match v {
        Value::Bool(b) => b as u32,
        Value::Int(z) => i32::from(z).cast_unsigned(),
        Value::Dint(z) => z.cast_unsigned(),
        Value::Time(z) => z.cast_unsigned(),
        Value::Lint(_) | Value::Real(_) | Value::Word(_) | Value::Dword(_) => unreachable!(),
    }
}

/// The number of a value as an image of this version has it.
fn put_number(out: &mut Vec<u8>, version: Version, v: Value) -> Result<(), AllocError>
    requires { may_keep version v ≡ true }
    ensures { OnOk result (out.new.items ≡ out.old.items ++ number_bytes version (number_of v)) }
{
    match version {
        Version::One => put_u32(out, short_bits(v)),
        Version::Two | Version::Three => put_u64(out, v.number().cast_unsigned()),
    }
}

fn put_variable(out: &mut Vec<u8>, version: Version, v: &Variable) -> Result<(), AllocError>
    requires { may_declare version v.now ≡ true }
    ensures { OnOk result (out.new.items ≡ out.old.items ++ variable_bytes version v.now) }
{
    put_name(out, &v.name)?;
    put_u8(out, declared_code(v.retained, type_code(v.ty)))?;
    put_u16(out, location_code(v.location))?;
    put_number(out, version, v.initial)
}

fn put_constant(out: &mut Vec<u8>, version: Version, v: Value) -> Result<(), AllocError>
    requires { may_keep version v ≡ true }
    ensures { OnOk result (out.new.items ≡ out.old.items ++ constant_bytes version v) }
{
    put_u8(out, type_code(v.ty()))?;
    put_number(out, version, v)
}

/// The code of a literal's constant.
fn literal_code(constants: &Constants, v: Value) -> usize
    ensures { result ≡ code_of (coded_literal constants.now v) }
{
    match constants.place(v) {
        Some(k) => FIRST_CONSTANT as usize + k,
        None => CodedOperand::Unused.code(),
    }
}

fn put_instance(out: &mut Vec<u8>, x: &Instance) -> Result<(), AllocError>
    ensures { OnOk result (out.new.items ≡ out.old.items ++ instance_bytes x.now) }
{
    put_name(out, &x.name)?;
    put_u8(out, declared_code(x.retained, usize::from(x.kind.code())))
}

fn target_address(addresses: &[usize], target: Option<u16>) -> usize
    ensures { result ≡ number_or_unused (option_and_then (slice_get addresses.now) target) }
{
    match target {
        Some(n) => match addresses.get(n as usize) {
            Some(address) => *address,
            None => CodedOperand::Unused.code(),
        },
        None => CodedOperand::Unused.code(),
    }
}

fn coded_field(place: Option<Place>) -> CodedOperand
    ensures { result ≡ coded_field place }
{
    match place {
        Some(Place::Field(instance, field)) => CodedOperand::Field { instance, field },
        _ => CodedOperand::Unused,
    }
}

fn coded_variable(number: Option<u16>) -> CodedOperand
    ensures { result ≡ numbered coded.Variable number }
{
    match number {
        Some(i) => CodedOperand::Variable(i),
        None => CodedOperand::Unused,
    }
}

/// The number of an operand: a constant's by its place in the table, a label's by where it stands.
fn operand_code(
    program: &IndexedProgram,
    addresses: &[usize],
    constants: &Constants,
    operand: &Operand,
) -> usize
    requires { addresses.now ≡ addresses_from 0 program.now.code }
    ensures { result ≡ operand_code program.now constants.now operand.now }
{
    match operand {
        Operand::Label(name) => target_address(addresses, program.target_of(name)),
        Operand::Instance(name) => match program.instance_named(name) {
            Some(i) => i as usize,
            None => CodedOperand::Unused.code(),
        },
        Operand::Literal(v) => literal_code(constants, *v),
        Operand::Variable(name) => coded_variable(program.variable_named(name)).code(),
        Operand::Field(name, field) => coded_field(program.field_of(name, field)).code(),
        Operand::Direct(loc) => CodedOperand::Location(*loc).code(),
        Operand::Absent | Operand::Bare(_) => CodedOperand::Unused.code(),
    }
}

/// The number of an operand that is this literal, or none and then stands in the program as it is.
fn settled_code(
    program: &IndexedProgram,
    addresses: &[usize],
    constants: &Constants,
    operand: &Operand,
    literal: Option<Value>,
) -> usize
    requires { addresses.now ≡ addresses_from 0 program.now.code }
    ensures { result ≡ settled_code program.now constants.now operand.now literal }
{
    match literal {
        Some(v) => literal_code(constants, v),
        None => operand_code(program, addresses, constants, operand),
    }
}

fn put_word(out: &mut Vec<u8>, op: usize, letters: usize, operand: usize) -> Result<(), AllocError>
    ensures { OnOk result (out.new.items ≡ out.old.items ++ coded_word op letters operand) }
{
    put_u8(out, op)?;
    put_u8(out, letters)?;
    put_u16(out, operand)
}

/// The number of an argument's field in the kind of the block that is called.
fn field_number(kind: Option<BlockKind>, argument: &Argument) -> usize
    ensures { result ≡ field_number_code (option_and_then (λ k. field_number k argument.now.field) kind) }
{
    match kind {
        Some(kind) => match kind.field_number(argument.field.bytes()) {
            Some(n) => n as usize,
            None => 255,
        },
        None => 255,
    }
}

fn put_arguments(
    out: &mut Vec<u8>,
    program: &IndexedProgram,
    addresses: &[usize],
    constants: &Constants,
    kind: Option<BlockKind>,
    arguments: &[Argument],
) -> Result<(), AllocError>
    requires { addresses.now ≡ addresses_from 0 program.now.code }
    ensures { OnOk result (out.new.items
        ≡ out.old.items ++ flat_map (settled_passing_word program.now constants.now kind) arguments.now) }
{
    for a in arguments {
        let code = settled_code(
            program,
            addresses,
            constants,
            &a.operand,
            argument_literal(a),
        );
        put_word(out, side_code(a.side), field_number(kind, a), code)?;
    }
    Ok(())
}

fn put_instruction(
    out: &mut Vec<u8>,
    program: &IndexedProgram,
    addresses: &[usize],
    constants: &Constants,
    line: &Instr,
    literal: Option<Value>,
) -> Result<(), AllocError>
    requires { addresses.now ≡ addresses_from 0 program.now.code }
    ensures { OnOk result (out.new.items
        ≡ out.old.items ++ settled_instruction program.now constants.now line.now literal) }
{
    let code = settled_code(program, addresses, constants, &line.operand, literal);
    put_word(out, op_code(line.op), modifier_code(line.modifier), code)?;
    let kind = program.called_kind(&line.operand);
    put_arguments(
        out,
        program,
        addresses,
        constants,
        kind,
        line.arguments.as_slice(),
    )
}

fn put_counts(
    out: &mut Vec<u8>,
    variables: usize,
    instances: usize,
    labels: usize,
    constants: usize,
    words: usize,
) -> Result<(), AllocError>
    ensures { OnOk result (out.new.items ≡ out.old.items ++ counts_bytes variables instances labels constants words) }
{
    put_u16(out, variables)?;
    put_u16(out, instances)?;
    put_u16(out, labels)?;
    put_u16(out, constants)?;
    put_u16(out, words)
}

fn put_variables(out: &mut Vec<u8>, version: Version, vs: &[Variable]) -> Result<(), AllocError>
    requires { list_all (may_declare version) vs.now ≡ true }
    ensures { OnOk result (out.new.items ≡ out.old.items ++ flat_map (variable_bytes version) vs.now) }
{
    for v in vs {
        put_variable(out, version, v)?;
    }
    Ok(())
}

fn put_instances(out: &mut Vec<u8>, xs: &[Instance]) -> Result<(), AllocError>
    ensures { OnOk result (out.new.items ≡ out.old.items ++ flat_map instance_bytes xs.now) }
{
    for x in xs {
        put_instance(out, x)?;
    }
    Ok(())
}

/// The label of an instruction, if it has one, and the address where it stands.
fn put_label_of(out: &mut Vec<u8>, n: usize, line: &Instr) -> Result<(), AllocError>
    ensures { OnOk result (out.new.items ≡ out.old.items ++ flat_map mark_bytes (with_mark n line.now.label [])) }
{
    match &line.label {
        Some(label) => put_label(out, n, label),
        None => Ok(()),
    }
}

/// A label and the address where it stands.
fn put_label(out: &mut Vec<u8>, n: usize, label: &Name) -> Result<(), AllocError>
    ensures { OnOk result (out.new.items ≡ out.old.items ++ mark_bytes (record { name = label.now; at = n })) }
{
    put_name(out, label)?;
    put_u16(out, n)
}

/// The labels, each with the address of its instruction.
fn put_labels(out: &mut Vec<u8>, addresses: &[usize], code: &[Instr]) -> Result<(), AllocError>
    requires { addresses.now ≡ addresses_from 0 code.now }
    ensures { OnOk result (out.new.items ≡ out.old.items ++ flat_map mark_bytes (marks_from 0 code.now)) }
{
    for n in 0..code.len() {
        put_label_of(out, addresses[n], &code[n])?;
    }
    Ok(())
}

/// The addresses of the instructions, and how many words they have in all.
fn addresses_of(alloc: Global, code: &[Instr]) -> Result<(Vec<usize>, usize), AllocError>
    requires short { length code.now ≤ MOST_INSTRUCTIONS }
    requires few { AllByRecursion HasFewArguments code.now }
    ensures addresses { IfOk result (λ x. x.0.items ≡ addresses_from 0 code.now) }
    ensures count { IfOk result (λ x. x.1 ≡ words_in code.now) }
{
    let mut found = Vec::new(alloc);
    let mut at = 0;
    for line in code {
        found.push(at)?;
        at += 1 + line.arguments.as_slice().len();
    }
    Ok((found, at))
}

fn labelled_count(code: &[Instr]) -> usize
    ensures { result ≡ count_by (λ line. is_some line.label) code.now }
{
    code.iter().filter(|line| line.label.is_some()).count()
}

fn label_count(code: &[Instr]) -> usize
    ensures { result ≡ length (marks_from 0 code.now) }
{
    labelled_count(code)
}

fn put_constants(out: &mut Vec<u8>, version: Version, constants: &[Value]) -> Result<(), AllocError>
    requires { list_all (may_keep version) constants.now ≡ true }
    ensures { OnOk result (out.new.items ≡ out.old.items ++ flat_map (constant_bytes version) constants.now) }
{
    for v in constants {
        put_constant(out, version, *v)?;
    }
    Ok(())
}

fn put_words(
    out: &mut Vec<u8>,
    program: &IndexedProgram,
    addresses: &[usize],
    constants: &Constants,
    code: &[Instr],
    literals: &[Option<Value>],
) -> Result<(), AllocError>
    requires addresses { addresses.now ≡ addresses_from 0 program.now.code }
    requires literals { length literals.now ≡ length code.now }
    ensures { OnOk result (out.new.items
        ≡ out.old.items ++ settled_words program.now constants.now code.now literals.now) }
{
    for n in 0..code.len() {
        put_instruction(out, program, addresses, constants, &code[n], literals[n])?;
    }
    Ok(())
}

/// The bytes of the typed program of a program, whose literals these are, one for each instruction.
pub fn encode(
    alloc: Global,
    program: &IndexedProgram,
    literals: &[Option<Value>],
) -> Result<Vec<u8>, AllocError>
    requires literals { length literals.now ≡ length program.now.code }
    requires few { AllByRecursion HasFewArguments program.now.code }
    ensures { IfOk result (λ v. v.items
        ≡ settled_bytes program.now (constants_in [] (all_literals program.now.code literals.now)) literals.now) }
{
    let declared = program.program();
    let variables = declared.variables.as_slice();
    let instances = declared.instances.as_slice();
    let code = program.code();
    let constants = constants_of(alloc, code, literals)?;
    let (addresses, words) = addresses_of(alloc, code)?;
    let addresses = addresses.as_slice();
    let version = version_with(variables, instances, constants.values(), code);
    let mut out = Vec::new(alloc);
    out.extend_from_slice(&MAGIC)?;
    put_u16(&mut out, version.number() as usize)?;
    put_counts(
        &mut out,
        variables.len(),
        instances.len(),
        label_count(code),
        constants.values().len(),
        words,
    )?;
    put_variables(&mut out, version, variables)?;
    put_instances(&mut out, instances)?;
    put_labels(&mut out, addresses, code)?;
    put_constants(&mut out, version, constants.values())?;
    put_words(&mut out, program, addresses, &constants, code, literals)?;
    Ok(out)
}
