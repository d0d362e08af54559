//! A store of texts that replies to the lines of standard input in their order, while several threads work.
#![tactic(auto)]

mod command;
mod gate;
mod replies;
mod store;

use command::Command;
use crossbeam_channel::{Receiver, Sender};
use gate::Gate;
use replies::Replies;
use std::alloc::Global;
use std::io::{BufRead, BufReader};
use std::sync::Wait;
use std::thread::Threads;
use std::{io, thread};
use store::{Reply, Store};

const WORKERS: usize = 4;

// A command, and the number of its line.
#[derive(Drop)]
struct Job {
    line: u64,
    command: Command,
}

// A reply, and the number of the line that it replies to.
#[derive(Drop)]
struct Done {
    line: u64,
    reply: Reply,
}

// The ends of channels that a worker owns: one gives its jobs, the other takes what is done.
#[derive(Drop)]
struct Ends {
    jobs: Receiver<Job>,
    done: Sender<Done>,
}

// What the threads share.
#[derive(Drop)]
struct Shared {
    store: Store,
    gate: Gate,
}

// Does jobs until there are no more. If nobody reads the replies any more, the rest is done all the same, since the reader of the lines
// may wait for it.
fn work<R: Wait>(rt: &R, alloc: Global, shared: &Shared, ends: Ends) {
    for Job { line, command } in ends.jobs.iter(rt) {
        let reply = shared.store.carry_out(rt, alloc, command);
        shared.gate.pass(rt);
        if ends.done.send(rt, Done { line, reply }).is_err() {
            shared.gate.set_broken();
        }
    }
}

// Writes the replies in the order of their lines, until there are no more.
fn write_replies<R: Wait + Print>(rt: &R, alloc: Global, done: Receiver<Done>) -> io::Result<()> {
    let mut replies = Replies::new(alloc);
    for Done { line, reply } in done.iter(rt) {
        replies.add(line, reply)?;
        write_ready(rt, &mut replies)?;
    }
    Ok(())
}

// Writes the replies that wait for no other.
fn write_ready<R: Print>(rt: &R, replies: &mut Replies) -> io::Result<()> {
    for _ in 0..replies.len() {
        let Some(reply) = replies.take_next() else {
            break;
        };
        println!(rt; "{}", *reply)?;
    }
    Ok(())
}

// Hands a command to a worker. `KEYS` is done alone: after all commands before it, and before those after it.
fn hand_over<R: Wait>(
    rt: &R,
    shared: &Shared,
    workers: &[Sender<Job>],
    job: Job,
) -> io::Result<()> {
    let Some(worker) = workers.get(job.command.worker(WORKERS)) else {
        return Ok(());
    };
    let is_alone = matches!(&job.command, Command::Keys);
    let before = job.line;
    if is_alone {
        shared.gate.wait_for(rt, before);
    }
    worker.send(rt, job)?;
    if is_alone {
        shared.gate.wait_for(rt, before.saturating_add(1));
    }
    Ok(())
}

// Reads lines to the end of the input, or until nobody reads the replies any more.
fn read_lines<R: Wait + Input>(
    rt: &R,
    alloc: Global,
    shared: &Shared,
    workers: Vec<Sender<Job>>,
) -> io::Result<()> {
    let mut line = 0u64;
    for text in BufReader::new(alloc, rt.reader())?.lines(alloc) {
        if shared.gate.is_broken() {
            break;
        }
        let command = Command::parse(alloc, text?.as_str())?;
        hand_over(rt, shared, &workers, Job { line, command })?;
        line = line.saturating_add(1);
    }
    Ok(())
}

// Makes the channels of the workers: the ends to which jobs are sent, and those that the workers own.
fn connect(alloc: Global, done: Sender<Done>) -> io::Result<(Vec<Sender<Job>>, Vec<Ends>)> {
    let mut workers = Vec::new(alloc);
    let mut ends = Vec::new(alloc);
    for _ in 0..WORKERS {
        let (worker, jobs) = crossbeam_channel::unbounded(alloc)?;
        workers.push(worker)?;
        ends.push(Ends {
            jobs,
            done: done.clone()?,
        })?;
    }
    Ok((workers, ends))
}

// Replies to the lines of the input to its end.
fn serve<R: Threads + Wait + Input + Print + Sync>(
    rt: &R,
    alloc: Global,
    shared: &Shared,
) -> io::Result<()> {
    let (done, replies) = crossbeam_channel::unbounded(alloc)?;
    let (workers, ends) = connect(alloc, done)?;
    thread::scope(thread::scope_env(), rt, move |scope| {
        for ends in ends {
            let worker = scope.spawn(move || work(rt, alloc, shared, ends));
            drop(worker);
        }
        let writer = scope.spawn(move || write_replies(rt, alloc, replies))?;
        let read = read_lines(rt, alloc, shared, workers);
        writer.join(rt).and(read)
    })
}

fn main(rt: HostRuntime) -> io::Result<()> {
    let shared = Shared {
        store: Store::new(rt.alloc(), WORKERS),
        gate: Gate::new(),
    };
    serve(&rt, rt.alloc(), &shared)
}
