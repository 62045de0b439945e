//! Four clients of a replicated map record what they see, each in a thread of its own, and then the answer for all that
//! they recorded is printed. docs/RECORDING.md walks through it.
//!
//! `tcc_recorders alone` lets them take their turns one after another in one thread: the answers are the same.
#![tactic(auto)]

mod client;
mod halt;
mod script;
mod store;

use client::Client;
use halt::PlayError;
use script::{ROLES, ROUNDS, SEALED};
use std::alloc::{Alloc, Global};
use std::io::{Eprint, Write};
use std::process::ExitCode;
use std::sync::Wait;
use std::thread::Threads;
use std::{env, io, thread};
use store::Store;
use tcc_answer::write_text;
use tcc_book::{Book, Pass};
use tcc_explain::{OpenGate, Workers, explain};
use tcc_graph::Level;
use tcc_run::audit;

/// The clients, with their sessions open in the book.
fn open_all(rt: &impl Wait, alloc: Global, book: &Book) -> Result<Vec<Client>, PlayError> {
    let mut clients = Vec::new(alloc);
    for role in &ROLES {
        clients.push(Client::open(rt, alloc, book, *role)?)?;
    }
    Ok(clients)
}

/// The clients' turns of a round, one after another.
fn in_turn(
    rt: &impl Wait,
    alloc: Global,
    book: &Book,
    store: &Store,
    clients: Vec<Client>,
    round: u32,
) -> Result<Vec<Result<Client, PlayError>>, PlayError> {
    let mut ends = Vec::new(alloc);
    for client in clients {
        ends.push(client.take_turn(rt, alloc, book, store, round))?;
    }
    Ok(ends)
}

/// A round: each client takes its turn, in a thread of its own or, with `alone`, one after another. Then what they wrote is
/// sent to the replicas.
fn play_round(
    rt: &(impl Threads + Wait + Sync),
    alloc: Global,
    book: &Book,
    store: &mut Store,
    clients: Vec<Client>,
    round: u32,
    alone: bool,
) -> Result<Vec<Client>, PlayError> {
    let seen: &Store = store;
    let ends = if alone {
        in_turn(rt, alloc, book, seen, clients, round)?
    } else {
        thread::map_vec(
            rt,
            clients,
            &|client| client.take_turn(rt, alloc, book, seen, round),
        )?
    };
    let mut clients = Vec::new(alloc);
    for end in ends {
        clients.push(end?)?;
    }
    for client in &clients {
        client.deliver(store, round)?;
    }
    Ok(clients)
}

/// Writes the answer for what was recorded up to now, as a seal of the first client's pass has it.
fn answer_so_far<W: Write>(
    rt: &(impl Threads + Wait + Sync),
    alloc: Global,
    book: &Book,
    clients: &[Client],
    out: &mut W,
) -> Result<(), PlayError> {
    if let Some(client) = clients.first() {
        let sealed = book.seal(rt, alloc, &client.pass)?;
        let answer = explain(rt, alloc, &sealed, Level::Causal, Workers::ONE, &OpenGate)?;
        write_text(alloc, &answer, out)?;
    }
    Ok(())
}

/// The clients' passes. Standard error says what was recorded again because memory was refused.
fn passes_of(
    rt: &impl Eprint,
    alloc: Global,
    clients: Vec<Client>,
) -> Result<Vec<Pass>, PlayError> {
    let mut passes = Vec::new(alloc);
    for client in clients {
        if let Some(receipt) = client.again {
            let session = client.pass.session();
            let _ = eprintln!(rt; "recorded again: {session}/{}", receipt.place);
        }
        passes.push(client.pass)?;
    }
    Ok(passes)
}

/// Plays the script, and writes three answers: for what was recorded up to the round of the seal, for everything that was
/// recorded, and for the same at the weaker level.
fn play<W: Write>(
    rt: &(impl Threads + Wait + Eprint + Sync),
    alloc: Global,
    alone: bool,
    out: &mut W,
) -> Result<(), PlayError> {
    let book = Book::new(alloc)?;
    let mut clients = open_all(rt, alloc, &book)?;
    let mut store = Store::new(alloc);
    for round in 1..=ROUNDS {
        clients = play_round(rt, alloc, &book, &mut store, clients, round, alone)?;
        if round == SEALED {
            answer_so_far(rt, alloc, &book, &clients, out)?;
        }
    }
    let passes = passes_of(rt, alloc, clients)?;
    let audited = audit(
        rt,
        alloc,
        &book,
        &passes,
        Level::Causal,
        Workers::ONE,
        &OpenGate,
    )?;
    write_text(alloc, &audited, out)?;
    let whole = match book.close(rt, alloc, passes) {
        Ok(whole) => whole,
        Err(refused) => return Err(PlayError::from(refused.0)),
    };
    let atomic = explain(rt, alloc, &whole, Level::Atomic, Workers::ONE, &OpenGate)?;
    write_text(alloc, &atomic, out)?;
    Ok(())
}

/// Whether the first argument asks for one thread.
fn is_alone(rt: &HostRuntime) -> Result<bool, PlayError> {
    Ok(
        env::args(rt)?
            .nth(1)
            .is_some_and(|word| word.as_str() == "alone"),
    )
}

fn main(rt: HostRuntime) -> ExitCode {
    let mut out = io::writer(&rt);
    let played = is_alone(&rt).and_then(|alone| play(&rt, rt.alloc(), alone, &mut out));
    match played {
        Ok(()) => ExitCode::SUCCESS,
        Err(halt) => {
            if halt.is_memory() {
                let _ = out.write_all(b"memory\n");
            }
            ExitCode::from(halt.status())
        }
    }
}
