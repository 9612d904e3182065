//! The first fault of tables that were read.

ghost use Rattle.std.specs.Prelude.{◌≡◌, ◌+◌, ◌<◌, ◌^◌, false, Ok, Some, option_map};
ghost use Rattle.std.specs.List.{position};
ghost use Rattle.il_model.specs.Constants.{step_used};
ghost use Rattle.il_loader.specs.Tables.{operand_in, is_argument};
ghost use Rattle.il_records.specs.declared.fault.LoadFault.TheVariants.{BadVersion};
ghost use Rattle.il_records.specs.Fields.{Gives, agrees};
ghost use Rattle.il_loader.specs.Judging.{word_place, constant_length, constant_place, label_place, is_start, risen};
ghost use Rattle.il_loader.specs.Judging.{constant_in, used_from, sooner, says_nothing, takes_argument, stray_from};
ghost use Rattle.il_loader.specs.Judging.{misspelled, type_fault, words_fine, all_used, is_same, is_own_version};

use crate::label::Label;
use crate::word::{Content, Word};
use il_model::{
    CodedOperand, Op, Operand, Program, TypeFault, Value, Version, is_pointless, version_with,
};
use il_records::{LoadError, LoadFault, agrees};

fn word_place(total: usize, count: usize, n: usize) -> usize
    ensures { result ≡ word_place total count n }
{
    total.saturating_sub(count.saturating_sub(n).saturating_mul(4))
}

/// How many bytes a constant has.
fn constant_length(version: Version) -> usize
    ensures { result ≡ constant_length version }
{
    match version {
        Version::One => 5,
        Version::Two | Version::Three => 9,
    }
}

/// Where the constant of a number stands.
pub fn constant_place(version: Version, total: usize, words: usize, count: usize, k: usize) -> usize
    ensures { result ≡ constant_place version total words count k }
{
    let behind = total.saturating_sub(words.saturating_mul(4));
    behind.saturating_sub(
        count
            .saturating_sub(k)
            .saturating_mul(constant_length(version)),
    )
}

/// Where the first of these labels stands, if the last ends there.
fn label_place(end: usize, labels: &[Label]) -> usize
    ensures { result ≡ label_place end labels.now }
{
    let mut place = end;
    for label in labels {
        place = place.saturating_sub(label.name.len()).saturating_sub(3);
    }
    place
}

fn is_argument(content: &Content) -> bool
    ensures { result ≡ is_argument content.now }
{
    matches!(content, Content::Argument(_, _, _))
}

/// Whether a word is there, and an instruction begins with it.
fn is_start(word: Option<&Word>) -> bool
    ensures { result ≡ is_start (option_map (λ w. w.now) word.entry) }
{
    match word {
        Some(word) => !is_argument(&word.content),
        None => false,
    }
}

/// Whether the addresses rise, and at each an instruction begins; the fault stands at the label.
pub fn check_labels(end: usize, words: &[Word], labels: &[Label]) -> Result<(), LoadError>
    ensures { Gives (λ x. x) result (risen end 0 words.now labels.now) }
{
    let mut least = 0;
    let mut rest = labels;
    while let [label, others @ ..] = rest {
        let at = label.at as usize;
        if at < least || !is_start(words.get(at)) {
            let position = label_place(end, rest);
            return Err(LoadError::Fault(LoadFault::BadTarget { position }));
        }
        least = at + 1;
        rest = others;
    }
    Ok(())
}

fn operand_in(content: &Content) -> &Operand
    ensures { result.now ≡ operand_in content.now }
{
    match content {
        Content::Instruction(line) => &line.operand,
        Content::Argument(_, _, operand) => operand,
    }
}

fn constant_in(word: &Word) -> Option<usize>
    ensures { result ≡ constant_in (operand_in word.now.content) word.now.code }
{
    match (operand_in(&word.content), CodedOperand::of_code(word.code)) {
        (Operand::Literal(_), Some(CodedOperand::Constant(k))) => Some(k as usize),
        _ => None,
    }
}

fn step_used(constant: Option<usize>, used: usize) -> Option<usize>
    requires { used + 1 < 2 ^ 64 }
    ensures { result ≡ step_used constant used }
{
    match constant {
        Some(k) => {
            if k < used {
                Some(used)
            } else if k == used {
                Some(used + 1)
            } else {
                None
            }
        }
        None => Some(used),
    }
}

/// How many of the constants the words use, or the first word that uses one before a lower one.
pub fn used_by(words: &[Word]) -> Result<usize, usize>
    ensures { result ≡ used_from 0 0 words.now }
{
    let mut used = 0;
    for n in 0..words.len() {
        match step_used(constant_in(&words[n]), used) {
            Some(more) => used = more,
            None => return Err(n),
        }
    }
    Ok(used)
}

/// Whether it is an empty instruction without a label.
fn says_nothing(content: &Content) -> bool
    ensures { result ≡ says_nothing content.now }
{
    match content {
        Content::Instruction(line) => is_pointless(line),
        Content::Argument(_, _, _) => false,
    }
}

fn silent_word(words: &[Word]) -> Option<usize>
    ensures { result ≡ position (λ w. says_nothing w.content) words.now }
{
    words.iter().position(|word| says_nothing(&word.content))
}

/// Whether an argument may stand behind it.
fn takes_argument(content: &Content) -> bool
    ensures { result ≡ takes_argument content.now }
{
    match content {
        Content::Instruction(line) => line.op == Op::Cal,
        Content::Argument(_, _, _) => true,
    }
}

/// The first argument that stands behind neither a call nor another argument.
fn stray_word(words: &[Word]) -> Option<usize>
    ensures { result ≡ stray_from false words.now }
{
    let mut may = false;
    for n in 0..words.len() {
        let content = &words[n].content;
        if is_argument(content) && !may {
            return Some(n);
        }
        may = takes_argument(content);
    }
    None
}

fn sooner(m: Option<usize>, n: Option<usize>) -> Option<usize>
    ensures { result ≡ sooner m n }
{
    match (m, n) {
        (Some(m), Some(n)) => if n < m { Some(n) } else { Some(m) },
        (Some(m), None) => Some(m),
        (None, n) => n,
    }
}

/// The first word that no spelling has there.
pub fn misspelled(words: &[Word], used: Result<usize, usize>) -> Option<usize>
    ensures { result ≡ misspelled words.now used }
{
    let first = sooner(silent_word(words), stray_word(words));
    match used {
        Ok(_) => first,
        Err(n) => match first {
            Some(m) => if m < n { Some(m) } else { Some(n) },
            None => Some(n),
        },
    }
}

fn type_fault(position: usize, fault: TypeFault) -> LoadFault
    ensures { result ≡ type_fault position fault }
{
    match fault {
        TypeFault::UnknownLabel => LoadFault::BadTarget { position },
        _ => LoadFault::BadType { position },
    }
}

/// The first fault of the words: of their spelling or of their types.
pub fn check_words(
    total: usize,
    count: usize,
    misspelled: Option<usize>,
    typed: Result<(), (TypeFault, usize)>,
) -> Result<(), LoadError>
    ensures { Gives (λ x. x) result (words_fine total count misspelled typed) }
{
    if let Some(n) = misspelled {
        let before = match typed {
            Ok(_) => true,
            Err((_, m)) => n <= m,
        };
        if before {
            let position = word_place(total, count, n);
            return Err(LoadError::Fault(LoadFault::BadWord { position }));
        }
    }
    match typed {
        Ok(_) => Ok(()),
        Err((fault, n)) => Err(LoadError::Fault(type_fault(word_place(total, count, n), fault))),
    }
}

/// Whether all of the constants are used.
pub fn check_used(
    version: Version,
    total: usize,
    words: usize,
    count: usize,
    used: Result<usize, usize>,
) -> Result<(), LoadError>
    ensures { Gives (λ x. x) result (all_used version total words count used) }
{
    match used {
        Ok(k) => {
            let position = constant_place(version, total, words, count, k);
            agrees(LoadFault::BadWord { position }, k == count)
        }
        Err(_) => Ok(()),
    }
}

fn check_same(version: Version, own: Version) -> Result<(), LoadError>
    ensures { Gives (λ x. x) result (agrees BadVersion (is_same version own)) }
{
    agrees(LoadFault::BadVersion, version == own)
}

/// Whether the version is that of the program, whose constants these are.
pub fn check_version(
    version: Version,
    constants: &[Value],
    program: &Program,
) -> Result<(), LoadError>
    ensures { Gives (λ x. x) result (agrees BadVersion (is_own_version version constants.now program.now)) }
{
    let own = version_with(
        program.variables.as_slice(),
        program.instances.as_slice(),
        constants,
        program.code.as_slice(),
    );
    check_same(version, own)
}
