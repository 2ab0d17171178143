//! The job of snmpd: reads module files and a table file, and serves the table at a UDP port.
ghost use Rattle.std.specs.Prelude.{◌≡◌, ◌≤◌, IfErr, IfOk, OnOk, length};
ghost use Rattle.snmp_io.specs.{Files.Holdings, Output.Stream};
ghost use Rattle.snmp_net.specs.Address.{IsHostAndPort};
ghost use Rattle.snmp_words.specs.Words.{serve_words};
ghost use Rattle.snmp_tools.specs.FaultText.{fault_of, outcome_of};
ghost use Rattle.snmp_tools.specs.{Seen.seen, serve.Service.ServiceFails};
ghost use Rattle.snmp_tools.specs.serve.ServeResult.{IsServeOutcome, IsServedBy, IsServing};
ghost use Rattle.snmp_tools.specs.serve.ServeResult.{ServesAt};
ghost use Rattle.snmp_tools.specs.serve.ServeResult.{counts_line, listening_line};

use crate::failure::Failure;
use crate::load::ModuleLoader;
use crate::messages::Messages;
use crate::run::print_text;
use crate::table_names::table_at;
use smi_tree::Tree;
use snmp_agent::{Config, Served, Table};
use snmp_io::{Draft, Files, Output};
use snmp_net::{Links, UdpAddress};
use snmp_walk::WalkEnd;
use snmp_words::ServeJob;
use std::alloc::{AllocError, Global};

/// Serves a table file as the arguments of snmpd ask, with its names looked up in the module
/// files. Prints where requests are received, serves the turns (each takes at most one request),
/// and prints how many requests were replied to and how many dropped.
///
/// Before a socket is opened, the arguments are judged, then the module files and then the table
/// file. Warnings about the modules go to `err`. If a write to `err` fails, nothing else changes.
pub(crate) fn serve_table<'a, F: ModuleLoader<E>, L: Links, O: Output, E: Messages>(
    alloc: Global,
    job: &ServeJob<'a>,
    files: &F,
    links: &mut L,
    out: &mut O,
    err: &mut E,
) -> Result<(), Failure<'a>>
    ensures { IsServeOutcome L.Links (F.loads files.now) (serve_words job.now)
        (seen (F.text_at files.now) links.old (O.stream out.old) (E.stream err.old))
        (seen (F.text_at files.now) links.new (O.stream out.new) (E.stream err.new))
        (outcome_of result) }
{
    let address = listen_address(job)?;
    let tree = files.load(alloc, &job.mibs, err)?;
    serve_by(alloc, job, address, &tree, files, links, out)
}

// Returns the address of `--listen`. Fails if the community has more than 255 octets, or if the
// argument of `--listen` isn't a valid address.
fn listen_address<'a>(job: &ServeJob<'a>) -> Result<UdpAddress<'a>, Failure<'a>>
    ensures short_community { OnOk result (length job.now.community.now ≤ 255) }
    ensures address { IfOk result (λ address.
        IsHostAndPort job.now.listen.now address.host.now address.port) }
    ensures refused { (files : Holdings) → IfErr result (λ e.
        ServiceFails (serve_words job.now) files (fault_of e)) }
{
    if job.community.len() > 255 {
        return Err(Failure::Community);
    }
    match UdpAddress::read(job.listen) {
        Some(address) => Ok(address),
        None => Err(Failure::Agent(job.listen)),
    }
}

// Serves the table file at the address `address`, with its names looked up in `tree`. The file is
// read before a socket is opened.
fn serve_by<'a, F: Files, L: Links, O: Output>(
    alloc: Global,
    job: &ServeJob<'a>,
    address: UdpAddress<'a>,
    tree: &Tree,
    files: &F,
    links: &mut L,
    out: &mut O,
) -> Result<(), Failure<'a>>
    requires { length job.now.community.now ≤ 255 }
    ensures { (err : Stream) → IsServedBy L.Links (serve_words job.now)
        address.entry.host.now address.entry.port tree.now
        (seen (F.text_at files.now) links.old (O.stream out.old) err)
        (seen (F.text_at files.now) links.new (O.stream out.new) err) (outcome_of result) }
{
    let table = table_at(alloc, tree, files, job.table)?;
    let mut door = match links.bind(address.host, address.port) {
        Ok(door) => door,
        Err(_) => return Err(Failure::Ended(job.listen, WalkEnd::Link)),
    };
    serve_at(alloc, job, &mut door, &table, links, out)
}

// Prints the line that says where requests are received, serves the turns of `job` at `door`, and
// prints how many requests were replied to and how many dropped.
fn serve_at<'a, L: Links, O: Output>(
    alloc: Global,
    job: &ServeJob<'a>,
    door: &mut L::Door,
    table: &Table,
    links: &mut L,
    out: &mut O,
) -> Result<(), Failure<'a>>
    requires { length job.now.community.now ≤ 255 }
    ensures served { IsServing (ServesAt L.Links links.old door.old links.new)
        (links.new ≡ links.old) (serve_words job.now) table.now
        (O.stream out.old) (O.stream out.new) (outcome_of result) }
    ensures count { L.fault_count links.new ≡ L.fault_count links.old }
{
    let config = Config {
        community: job.community.as_bytes(),
        max_size: job.max_size as usize,
    };
    let listening = listening_line(alloc, job.listen)?;
    print_text(&listening, out)?;
    let served = links.serve(door, table, &config, job.turns);
    let counts = counts_line(alloc, &served)?;
    print_text(&counts, out)
}

// Returns the line that says where requests are received: at `word`.
fn listening_line(alloc: Global, word: &str) -> Result<Vec<u8>, AllocError>
    ensures { IfOk result (λ text. text.items ≡ listening_line word.now) }
{
    let mut text = Vec::new(alloc);
    let mut draft = Draft::after(&mut text);
    draft.octets(b"listening on ");
    draft.octets(word.as_bytes());
    draft.octets(b"\n");
    draft.finish(&mut text)?;
    Ok(text)
}

// Returns the line that says how many requests were replied to, and how many dropped.
fn counts_line(alloc: Global, served: &Served) -> Result<Vec<u8>, AllocError>
    ensures { IfOk result (λ text. text.items ≡ counts_line served.now) }
{
    let mut text = Vec::new(alloc);
    let mut draft = Draft::after(&mut text);
    draft.number(served.replies);
    draft.octets(b" replies, ");
    draft.number(served.dropped);
    draft.octets(b" dropped\n");
    draft.finish(&mut text)?;
    Ok(text)
}
