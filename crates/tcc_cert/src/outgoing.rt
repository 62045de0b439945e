//! Bytes that are gathered before they are written, so that there are few writes.
ghost use Rattle.std.specs.Prelude.{◌≡◌, ◌+◌, ◌*◌, ◌≤◌, ◌++◌, [], OnOk, codes, decimal, flat_map, length};
ghost use Rattle.tcc_cert.specs.{private.Writing.IsSent, declared.digits.TheConstants.NUMBER_BYTES, declared.outgoing.TheConstants.OUTGOING_BYTES};

use crate::digits::{NUMBER_BYTES, set_numbers};
use std::io::{self, Write};
use std::marker::Model;
use tcc_base::write_out;

/// How many bytes are gathered before a write.
const OUTGOING_BYTES: usize = 8192;

/// How many numbers are gathered at a time. Room for them is asked for once, and few of the bytes stay unused by it.
const NUMBERS: usize = 64;

/// The bytes that wait to be written.
#[derive(Drop)]
pub struct Outgoing {
    bytes: [u8; OUTGOING_BYTES],
    len: usize,
}

impl Model for Outgoing {
    ghost use Rattle.std.specs.Prelude.{ℕ, ◌≤◌, List, take};
    ghost use Rattle.tcc_cert.specs.declared.outgoing.TheConstants.{OUTGOING_BYTES};

    ghost Value = { List ℕ };

    ghost view = { λ g. take g.len g.bytes };

    ghost invariant = { λ g. g.len ≤ OUTGOING_BYTES };
}

impl Outgoing {
    pub(crate) fn new() -> Outgoing
        ensures { result ≡ [] }
    {
        Outgoing {
            bytes: [0; OUTGOING_BYTES],
            len: 0,
        }
    }

    /// Sends what is gathered.
    pub(crate) fn send<W: Write>(&mut self, out: &mut W) -> io::Result<()>
        ensures sent { IsSent result (W.contents out.old) self.old (W.contents out.new) self.new [] }
        ensures none { OnOk result (self.new ≡ []) }
    {
        write_out(out, &self.bytes[..self.len])?;
        self.len = 0;
        Ok(())
    }

    /// Sends what is gathered, and whatever the output gathers itself.
    pub(crate) fn finish<W: Write>(&mut self, out: &mut W) -> io::Result<()>
        ensures sent { IsSent result (W.contents out.old) self.old (W.contents out.new) self.new [] }
        ensures none { OnOk result (self.new ≡ []) }
    {
        self.send(out)?;
        out.flush()
    }

    /// Gathers a piece for which there is room.
    fn keep(&mut self, piece: &[u8])
        requires { length self.old + length piece.now ≤ OUTGOING_BYTES }
        ensures { self.new ≡ self.old ++ piece.now }
    {
        let end = self.len + piece.len();
        self.bytes[self.len..end].copy_from_slice(piece);
        self.len = end;
    }

    /// Gathers the piece, and sends what was gathered before where there is no room for it.
    pub(crate) fn put<W: Write>(&mut self, out: &mut W, piece: &[u8]) -> io::Result<()>
        ensures { IsSent result (W.contents out.old) self.old (W.contents out.new) self.new piece.now }
    {
        if piece.len() > OUTGOING_BYTES - self.len {
            self.send(out)?;
            if piece.len() > OUTGOING_BYTES {
                return write_out(out, piece);
            }
        }
        self.keep(piece);
        Ok(())
    }

    /// Makes room for `count` bytes.
    fn make_room<W: Write>(&mut self, out: &mut W, count: usize) -> io::Result<()>
        requires { count ≤ OUTGOING_BYTES }
        ensures sent { IsSent result (W.contents out.old) self.old (W.contents out.new) self.new [] }
        ensures room { OnOk result (length self.new + count ≤ OUTGOING_BYTES) }
    {
        if count > OUTGOING_BYTES - self.len {
            self.send(out)?;
        }
        Ok(())
    }

    /// Gathers numbers, each after a space, for which there is room.
    fn keep_numbers(&mut self, numbers: &[u32])
        requires { length self.old + NUMBER_BYTES * length numbers.now ≤ OUTGOING_BYTES }
        ensures { self.new ≡ self.old ++ flat_map (λ number. codes " " ++ decimal number) numbers.now }
    {
        self.len = set_numbers(&mut self.bytes, self.len, numbers);
    }

    /// Gathers numbers, each after a space. Where there is no room for more, what was gathered before is sent. Whether
    /// there is room is asked once for many of them.
    pub(crate) fn put_numbers<W: Write>(&mut self, out: &mut W, numbers: &[u32]) -> io::Result<()>
        ensures { IsSent result (W.contents out.old) self.old (W.contents out.new) self.new (flat_map (λ number. codes " " ++ decimal number) numbers.now) }
    {
        let mut kept = 0;
        while kept < numbers.len() {
            let end = kept + (numbers.len() - kept).min(NUMBERS);
            let some = &numbers[kept..end];
            self.make_room(out, NUMBER_BYTES * some.len())?;
            self.keep_numbers(some);
            kept = end;
        }
        Ok(())
    }
}
