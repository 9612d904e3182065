//! An argument of a command as a plain value, and what `clap` is told of it. So of all arguments one function has an
//! `Arg` at hand, which is dear to check.

use clap::builder::ValueParser;
use clap::{Arg, ArgAction};
use std::alloc::{AllocError, Global};

/// What an argument takes; a value has a name in help.
#[derive(Clone, Copy)]
pub(crate) enum Kind {
    /// A file, by its place.
    File,
    /// It's an option without a value.
    Flag,
    /// It's an option with a text that isn't empty.
    Text(&'static str),
    /// The same, which may be given more than once.
    Texts(&'static str),
    /// It's an option with a number, from the least to the greatest.
    Number(&'static str, i64, i64),
    /// It's an option with one of these words.
    OneOf(&'static str, &'static [&'static str]),
    /// The same, which may be given more than once.
    SomeOf(&'static str, &'static [&'static str]),
}

/// An argument of a command.
#[derive(Clone, Copy)]
pub(crate) struct Form {
    /// The word of an option, or what a file is called.
    name: &'static str,
    kind: Kind,
    help: &'static str,
    default: Option<&'static str>,
    is_wanted: bool,
    /// It's wanted where none of these is given, if there are some.
    wanted_unless: &'static [&'static str],
    refused_beside: &'static [&'static str],
    only_beside: Option<&'static str>,
}

impl Form {
    /// It may be left out, and given beside any other.
    pub(crate) fn new(name: &'static str, kind: Kind) -> Form {
        Form {
            name,
            kind,
            help: "",
            default: None,
            is_wanted: false,
            wanted_unless: &[],
            refused_beside: &[],
            only_beside: None,
        }
    }

    pub(crate) fn help(self, help: &'static str) -> Form {
        Form { help, ..self }
    }

    pub(crate) fn default_value(self, value: &'static str) -> Form {
        Form {
            default: Some(value),
            ..self
        }
    }

    pub(crate) fn wanted(self) -> Form {
        Form {
            is_wanted: true,
            ..self
        }
    }

    pub(crate) fn wanted_unless(self, others: &'static [&'static str]) -> Form {
        Form {
            wanted_unless: others,
            ..self
        }
    }

    pub(crate) fn refused_beside(self, others: &'static [&'static str]) -> Form {
        Form {
            refused_beside: others,
            ..self
        }
    }

    pub(crate) fn only_beside(self, other: &'static str) -> Form {
        Form {
            only_beside: Some(other),
            ..self
        }
    }
}

/// What `clap` is told of an argument.
pub(crate) fn arg<'a>(alloc: Global, form: &Form) -> Result<Arg<'a>, AllocError> {
    let arg = Arg::new(alloc, form.name)
        .help(form.help)
        .required(form.is_wanted);
    related(form, with_default(form, taking(form, arg)))
}

/// With what it takes.
fn taking<'a>(form: &Form, arg: Arg<'a>) -> Arg<'a> {
    match form.kind {
        Kind::File => arg.action(ArgAction::Set),
        Kind::Flag => arg.long(form.name).action(ArgAction::SetTrue),
        Kind::Text(value) => option(form, arg, value, ValueParser::NonEmptyString),
        Kind::Texts(value) => {
            option(form, arg, value, ValueParser::NonEmptyString).action(ArgAction::Append)
        }
        Kind::Number(value, least, most) => {
            option(form, arg, value, ValueParser::Signed(least, most))
        }
        Kind::OneOf(value, words) => option(form, arg, value, ValueParser::Names(words)),
        Kind::SomeOf(value, words) => {
            option(form, arg, value, ValueParser::Names(words)).action(ArgAction::Append)
        }
    }
}

/// An option with a value of this name.
fn option<'a>(form: &Form, arg: Arg<'a>, value: &'static str, parser: ValueParser<'a>) -> Arg<'a> {
    arg.long(form.name).value_name(value).value_parser(parser)
}

fn with_default<'a>(form: &Form, arg: Arg<'a>) -> Arg<'a> {
    match form.default {
        Some(value) => arg.default_value(value),
        None => arg,
    }
}

/// With those beside which it's wanted or refused.
fn related<'a>(form: &Form, arg: Arg<'a>) -> Result<Arg<'a>, AllocError> {
    let arg = arg
        .required_unless_present_any(form.wanted_unless)?
        .conflicts_with_all(form.refused_beside)?;
    match form.only_beside {
        Some(other) => arg.requires_arg(other),
        None => Ok(arg),
    }
}
