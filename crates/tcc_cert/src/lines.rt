//! Lines of words and of numbers, as they are written.
ghost use Rattle.std.specs.Prelude.{◌≡◌, ◌∷◌, map, flat_map, codes, ◌++◌};
ghost use Rattle.tcc_cert.specs.{private.Writing.IsSent, private.LineWords.word_text};
ghost use Rattle.tcc_cert.specs.Texts.{words_text, line_text, lines_text, numbers_words, table_lines};

use crate::outgoing::Outgoing;
use crate::{Numbers, Table};
use itoa::Buffer;
use std::io::{self, Write};

/// A word of a line.
#[derive(Clone, Copy)]
pub(crate) enum Word<'a> {
    /// These bytes.
    Text(&'a [u8]),
    /// The digits of a number.
    Number(usize),
}

/// A word.
fn put_word<W: Write>(outgoing: &mut Outgoing, out: &mut W, word: &Word) -> io::Result<()>
    ensures { IsSent result (W.contents out.old) outgoing.old (W.contents out.new) outgoing.new (word_text word.now) }
{
    match word {
        Word::Text(text) => outgoing.put(out, text),
        Word::Number(number) => outgoing.put(out, Buffer::new().format(*number).as_bytes()),
    }
}

/// A word after a space.
fn later_word<W: Write>(outgoing: &mut Outgoing, out: &mut W, word: &Word) -> io::Result<()>
    ensures { IsSent result (W.contents out.old) outgoing.old (W.contents out.new) outgoing.new (codes " " ++ word_text word.now) }
{
    outgoing.put(out, b" ")?;
    put_word(outgoing, out, word)
}

/// Words, each after a space.
fn later_words<W: Write>(outgoing: &mut Outgoing, out: &mut W, words: &[Word]) -> io::Result<()>
    ensures { IsSent result (W.contents out.old) outgoing.old (W.contents out.new) outgoing.new (flat_map (λ word. codes " " ++ word_text word) words.now) }
{
    for word in words {
        later_word(outgoing, out, word)?;
    }
    Ok(())
}

/// A line of these words.
pub(crate) fn line<W: Write>(
    outgoing: &mut Outgoing,
    out: &mut W,
    first: &[u8],
    later: &[Word],
) -> io::Result<()>
    ensures { IsSent result (W.contents out.old) outgoing.old (W.contents out.new) outgoing.new (line_text (first.now ∷ map word_text later.now)) }
{
    outgoing.put(out, first)?;
    later_words(outgoing, out, later)?;
    outgoing.put(out, b"\n")
}

/// A line of these numbers.
pub(crate) fn number_line<W: Write>(
    outgoing: &mut Outgoing,
    out: &mut W,
    numbers: &[u32],
) -> io::Result<()>
    ensures { IsSent result (W.contents out.old) outgoing.old (W.contents out.new) outgoing.new (line_text (numbers_words numbers.now)) }
{
    let Some((first, later)) = numbers.split_first() else {
        return outgoing.put(out, b"\n");
    };
    outgoing.put(out, Buffer::new().format(*first).as_bytes())?;
    outgoing.put_numbers(out, later)?;
    outgoing.put(out, b"\n")
}

/// A line for each row.
pub(crate) fn table<W: Write>(outgoing: &mut Outgoing, out: &mut W, table: &Table) -> io::Result<()>
    ensures { IsSent result (W.contents out.old) outgoing.old (W.contents out.new) outgoing.new (lines_text (table_lines table.now)) }
{
    for row in table.as_slice() {
        number_line(outgoing, out, row.as_slice())?;
    }
    Ok(())
}
