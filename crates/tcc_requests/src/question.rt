//! What is asked in a header line, after the lengths.
ghost use Rattle.std.specs.Prelude.{◌≡◌, IfOk, map, option_map};
ghost use Rattle.std.specs.Option.{option_copied};
ghost use Rattle.tcc_requests.specs.Headers.{asked_of, check_of, explain_of, flags_of, no_flags, question_of, survey_of, with_word, words_in, words_of};

use std::alloc::{AllocError, Global};
use tcc_graph::Level;

/// What is asked about records.
#[derive(Clone, Copy)]
pub enum Question {
    /// Their answers, within the default limits.
    Explain {
        level: Level,
        json: bool,
        /// The certificate of the last answer is wanted.
        certificate: bool,
    },
    /// Their answers, within the large limits.
    ExplainLarge {
        level: Level,
        json: bool,
        /// The certificate of the last answer is wanted.
        certificate: bool,
        /// The slice of the last anomaly is wanted.
        slice: bool,
    },
    /// Their contradicted reads.
    Survey {
        level: Level,
        json: bool,
        /// Within the large limits.
        large: bool,
    },
    /// The verdict on a certificate for them.
    Check {
        /// Within the large limits, and certificates of any version.
        large: bool,
    },
}

/// The options of a question.
#[derive(Clone, Copy)]
pub(crate) struct Flags {
    pub level: Level,
    pub json: bool,
    pub large: bool,
    pub certificate: bool,
    pub slice: bool,
}

/// No option is given.
fn no_flags() -> Flags
    ensures { result ≡ no_flags }
{
    Flags {
        level: Level::Causal,
        json: false,
        large: false,
        certificate: false,
        slice: false,
    }
}

/// One more option.
fn with_word(flags: Flags, word: &[u8]) -> Option<Flags>
    ensures { result ≡ with_word flags word.now }
{
    if word == b"--level=causal".as_slice() {
        Some(Flags {
            level: Level::Causal,
            ..flags
        })
    } else if word == b"--level=atomic".as_slice() {
        Some(Flags {
            level: Level::Atomic,
            ..flags
        })
    } else if word == b"--json".as_slice() {
        Some(Flags {
            json: true,
            ..flags
        })
    } else if word == b"--large".as_slice() {
        Some(Flags {
            large: true,
            ..flags
        })
    } else if word == b"--certificate".as_slice() {
        Some(Flags {
            certificate: true,
            ..flags
        })
    } else if word == b"--slice".as_slice() {
        Some(Flags {
            slice: true,
            ..flags
        })
    } else {
        None
    }
}

/// The options that the words give.
fn flags_of(words: &[&[u8]]) -> Option<Flags>
    ensures { result ≡ flags_of no_flags (map (λ word. word.now) words.now) }
{
    let mut flags = no_flags();
    for word in words {
        match with_word(flags, word) {
            Some(more) => flags = more,
            None => return None,
        }
    }
    Some(flags)
}

/// Answers with these options, if they go together.
fn explain_of(flags: Flags) -> Option<Question>
    ensures { result ≡ explain_of flags }
{
    let Flags {
        level,
        json,
        large,
        certificate,
        slice,
    } = flags;
    if large {
        Some(Question::ExplainLarge {
            level,
            json,
            certificate,
            slice,
        })
    } else if slice {
        None
    } else {
        Some(Question::Explain {
            level,
            json,
            certificate,
        })
    }
}

/// Contradicted reads with these options, if they go together.
fn survey_of(flags: Flags) -> Option<Question>
    ensures { result ≡ survey_of flags }
{
    if flags.certificate || flags.slice {
        None
    } else {
        Some(Question::Survey {
            level: flags.level,
            json: flags.json,
            large: flags.large,
        })
    }
}

/// A verdict with these options, if they go together: the level is that of the certificate.
fn check_of(flags: Flags) -> Option<Question>
    ensures { result ≡ check_of flags }
{
    match flags.level {
        Level::Atomic => None,
        Level::Causal => {
            if flags.json || flags.certificate || flags.slice {
                None
            } else {
                Some(Question::Check { large: flags.large })
            }
        }
    }
}

/// The question of the word, with these options. Only a check has a body of two parts.
fn question_of(in_parts: bool, word: &[u8], flags: Flags) -> Option<Question>
    ensures { result ≡ question_of in_parts word.now flags }
{
    if in_parts {
        if word == b"check".as_slice() {
            check_of(flags)
        } else {
            None
        }
    } else if word == b"explain".as_slice() {
        explain_of(flags)
    } else if word == b"survey".as_slice() {
        survey_of(flags)
    } else {
        None
    }
}

/// What is between the spaces.
fn words_of(alloc: Global, line: &[u8]) -> Result<Vec<&[u8]>, AllocError>
    ensures { IfOk result (λ words. map (λ word. word.now) words.items ≡ words_of line.now) }
{
    line.split(|byte| *byte == b' ').collect(alloc)
}

/// What the words after the lengths ask, if that is known.
pub(crate) fn asked_of(
    alloc: Global,
    in_parts: bool,
    words: Option<&[u8]>,
) -> Result<Option<Question>, AllocError>
    ensures { IfOk result (λ asked. asked ≡ asked_of in_parts (words_in (option_copied words.entry))) }
{
    let Some(words) = words else {
        return Ok(None);
    };
    let words = words_of(alloc, words)?;
    match words.as_slice().split_first() {
        Some((word, options)) => match flags_of(options) {
            Some(flags) => Ok(question_of(in_parts, word, flags)),
            None => Ok(None),
        },
        None => Ok(None),
    }
}
