//! The tables of an image as a whole.

ghost use Rattle.std.specs.Prelude.{◌≡◌};
ghost use Rattle.il_loader.specs.Reading.{bodies_at, tables_at};
ghost use Rattle.il_records.specs.Fields.{Gives};

use crate::declared::{Declared, SymbolTables};
use crate::instance::Instances;
use crate::label::Labels;
use crate::reading::{constants_of, instances_of, labels_of, variables_of, words_of};
use crate::variable::Variables;
use crate::word::Word;
use il_model::{Constants, Version};
use il_records::{Counts, LoadError, LoadFault, agrees, header_at};
use std::alloc::Global;
use std::marker::Model;

/// The tables of an image, as they were read.
#[derive(Drop)]
pub struct ReadTables<'a> {
    pub version: Version,
    pub variables: Variables<'a>,
    pub instances: Instances<'a>,
    pub labels: Labels<'a>,
    pub constants: Constants,
    pub words: Vec<Word>,
}

impl<'a> Model for ReadTables<'a> {
    ghost use Rattle.il_loader.specs.Tables.{Tables};

    ghost Value = { Tables };

    ghost view = { λ t. record {
      version = t.version;
      variables = t.variables;
      instances = t.instances;
      labels = t.labels;
      constants = t.constants;
      words = t.words.items;
    } };
}

#[tactic(auto, unfolding(crate::specs::Reading::bodies_at))]
fn bodies_at<'a>(
    alloc: Global,
    version: Version,
    total: usize,
    counts: Counts,
    bytes: &'a [u8],
) -> Result<ReadTables<'a>, LoadError>
    ensures { Gives (λ t. t) result (bodies_at version total counts bytes.entry.now) }
{
    let (variables, rest) = variables_of(alloc, version, total, counts.variables, bytes)?;
    let (instances, rest) = instances_of(
        alloc,
        version,
        total,
        &variables,
        counts.instances,
        rest,
    )?;
    let (labels, rest) = labels_of(alloc, version, total, counts.labels, rest)?;
    let (constants, rest) = constants_of(alloc, version, total, counts.constants, rest)?;
    let tables = SymbolTables {
        version,
        declared: &Declared::of(&variables, &instances),
        labels: &labels,
        constants: constants.values(),
    };
    let (words, rest) = words_of(alloc, total, &tables, counts.words, rest)?;
    agrees(LoadFault::Trailing, rest.len() == 0)?;
    Ok(ReadTables {
        version,
        variables,
        instances,
        labels,
        constants,
        words,
    })
}

/// The tables of an image, behind which nothing stands.
#[tactic(auto, unfolding(crate::specs::Reading::tables_at))]
pub fn tables_at<'a>(alloc: Global, bytes: &'a [u8]) -> Result<ReadTables<'a>, LoadError>
    ensures { Gives (λ t. t) result (tables_at bytes.entry.now) }
{
    let (version, counts, rest) = header_at(bytes)?;
    bodies_at(alloc, version, bytes.len(), counts, rest)
}
