//! How many variables, instances, instructions and words the image of a version has room for.

ghost use Rattle.std.specs.Prelude.{◌≡◌, nat_lt, length};
ghost use Rattle.il_model.specs.Marks.{words_in};
ghost use Rattle.il_model.specs.Limits.{is_crowded};

use crate::codes::Version;
use crate::limits::{
    EARLIER_CONSTANTS, EARLIER_INSTANCES, EARLIER_INSTRUCTIONS, EARLIER_VARIABLES, MOST_INSTANCES,
    MOST_INSTRUCTIONS, MOST_VARIABLES, MOST_WORDS,
};
use crate::program::{Instance, Instr, Variable};

/// Whether instructions have more than so many words.
fn has_more_words(code: &[Instr], most: usize) -> bool
    ensures { result ≡ nat_lt most (words_in code.now) }
{
    let mut left = most;
    for line in code {
        let arguments = line.arguments.as_slice().len();
        if left <= arguments {
            return true;
        }
        left -= arguments + 1;
    }
    false
}

/// Whether they are more than the first two versions have room for, and have more words than such a program may have.
fn are_crowded(code: &[Instr]) -> bool
    ensures { result ≡ is_crowded (length code.now) (words_in code.now) }
{
    code.len() > EARLIER_INSTRUCTIONS && has_more_words(code, MOST_WORDS)
}

impl Version {
    ghost use Rattle.std.specs.Prelude.{◌≡◌};
    ghost use Rattle.il_model.specs.Limits.{most_variables, most_instances, most_instructions, most_constants};
    ghost use Rattle.il_model.specs.Limits.{has_room};

    /// How many variables an image of this version may have.
    pub fn most_variables(self) -> usize
        ensures { result ≡ most_variables self }
    {
        match self {
            Version::One | Version::Two => EARLIER_VARIABLES,
            Version::Three => MOST_VARIABLES,
        }
    }

    /// How many instances it may have.
    pub fn most_instances(self) -> usize
        ensures { result ≡ most_instances self }
    {
        match self {
            Version::One | Version::Two => EARLIER_INSTANCES,
            Version::Three => MOST_INSTANCES,
        }
    }

    /// How many instructions it may have, and so how many labels.
    pub fn most_instructions(self) -> usize
        ensures { result ≡ most_instructions self }
    {
        match self {
            Version::One | Version::Two => EARLIER_INSTRUCTIONS,
            Version::Three => MOST_INSTRUCTIONS,
        }
    }

    /// How many constants it may have.
    pub fn most_constants(self) -> usize
        ensures { result ≡ most_constants self }
    {
        match self {
            Version::One | Version::Two => EARLIER_CONSTANTS,
            Version::Three => MOST_WORDS,
        }
    }

    /// Whether an image of this version has room for so many variables, instances and instructions with their words.
    pub fn has_room(self, variables: &[Variable], instances: &[Instance], code: &[Instr]) -> bool
        ensures { result ≡ has_room self variables.now instances.now code.now }
    {
        variables.len() <= self.most_variables()
            && instances.len() <= self.most_instances()
            && code.len() <= self.most_instructions()
            && !are_crowded(code)
    }
}
