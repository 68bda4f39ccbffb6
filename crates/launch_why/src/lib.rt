// Why a launch is refused, in words.
#![tactic(auto)]

use answers::Reason;
use launch_expected::front;
use launch_faults::{Fault, Spot, Stranger};
use print::Printer;
use reader::Reader;
use refusal_head::{Named, put_place};

// So many bytes of an atom are shown; no book has a longer one.
const SHOWN: usize = 64;

// The numbers of a launch: how many nodes there are, which of them are hidden, which one is started.
#[derive(Clone, Copy)]
pub struct Asked {
    pub n: u32,
    pub hidden: u64,
    pub start: u32,
}

// ---- the numbers

// A node that is none of the n: a hidden one, or else the starting one.
fn put_no_node(printer: &mut Printer, asked: Asked) {
    if nodes::beyond(asked.hidden, asked.n) {
        printer.put_bytes(b"HIDDEN has a node that is not among the first ");
    } else {
        printer.put_bytes(b"START is not among the first ");
    }
    printer.put_number(asked.n as u64);
    printer.put_bytes(b" nodes, which are numbered from 0\n");
}

// ---- the book

// A line of the book, and what is wrong with it.
fn put_line_fault(printer: &mut Printer, name: &[u8], line: usize, words: &[u8]) {
    printer.put_bytes(name);
    printer.put_bytes(b":");
    printer.put_number(line as u64);
    printer.put_bytes(b":");
    printer.put_bytes(words);
}

// The name of a text, and what is wrong with it.
fn put_fault(printer: &mut Printer, name: &[u8], words: &[u8]) {
    printer.put_bytes(name);
    printer.put_bytes(words);
}

// What is wrong with the book.
fn put_book_fault(printer: &mut Printer, name: &[u8], fault: Fault) {
    match fault {
        Fault::Empty(line) => put_line_fault(printer, name, line, b" the line is empty\n"),
        Fault::Long(line) => {
            put_line_fault(printer, name, line, b" the line has more than 64 bytes\n");
        }
        Fault::Open(line) => {
            put_line_fault(
                printer,
                name,
                line,
                b" the line has no newline at its end\n",
            );
        }
        Fault::Few => put_fault(
            printer,
            name,
            b": it has fewer lines than there are nodes\n",
        ),
        Fault::Many => {
            put_fault(
                printer,
                name,
                b": more than 65535 lines stand behind those of the nodes\n",
            );
        }
        Fault::Again(line, first) => {
            put_line_fault(printer, name, line, b" the atom of line ");
            printer.put_number(first as u64);
            printer.put_bytes(b" stands here again\n");
        }
    }
}

// ---- the file

// An atom of the file in quotes, with a question mark for each byte that would not stay in its line.
fn put_shown(printer: &mut Printer, atom: &[u8]) {
    printer.put_bytes(b"'");
    for b in front(atom, SHOWN) {
        printer.put_bytes(&[if *b < b' ' { b'?' } else { *b }]);
    }
    if SHOWN < atom.len() {
        printer.put_bytes(b"..");
    }
    printer.put_bytes(b"'");
}

// An atom of the file, and what is wrong with it.
fn put_spot(printer: &mut Printer, file: Named, spot: Spot, words: &[u8]) {
    put_place(printer, file, spot.at);
    put_shown(printer, spot.atom);
    printer.put_bytes(words);
}

// The group of the starting node that has namesakes with other nodes.
fn put_torn(printer: &mut Printer, file: Named, g: usize, node: &[u8]) {
    if let Some(name) = launch_faults::torn_group(file.text, g, node) {
        let words = b" names groups with different nodes, and the starting node is in this one\n";
        put_spot(printer, file, name, words);
    }
}

// The atom that is not in its part of the book, before or behind the first n lines.
fn put_unlisted(printer: &mut Printer, file: Named, g: usize, book: &[u8], n: u32) {
    match launch_faults::unlisted(file.text, g, book, n) {
        Some(Stranger::Group(name)) => {
            let words = b" is no s_group: it does not stand behind the first ";
            put_spot(printer, file, name, words);
        }
        Some(Stranger::Node(node)) => {
            let words = b" is no node: it is not among the first ";
            put_spot(printer, file, node, words);
        }
        None => return,
    }
    printer.put_number(n as u64);
    printer.put_bytes(b" lines of the book\n");
}

// Why the groups of a file are refused. Reason, numbers, book and file come side by side, here and in the two below: a struct of the four would be made by
// `put_why` and taken apart at once.
fn put_groups(printer: &mut Printer, reason: Reason, asked: Asked, book: &[u8], file: Named) {
    let Ok(g) = Reader::new(file.text).read() else {
        return;
    };
    match reason {
        Reason::GroupsDiffer => {
            put_torn(printer, file, g, book::line(book, asked.start as usize));
        }
        Reason::AtomUnknown => put_unlisted(printer, file, g, book, asked.n),
        _ => put_fault(
            printer,
            file.name,
            b": more than 32 s_groups are to be made\n",
        ),
    }
}

// ---- all

// Why a launch is refused for its numbers, its book or the groups of its file.
fn put_reason(printer: &mut Printer, reason: Reason, asked: Asked, book: Named, file: Named) {
    match reason {
        Reason::RosterSize => printer.put_bytes(b"N is not 1 to 64\n"),
        Reason::NodeUnknown => put_no_node(printer, asked),
        Reason::NoLaunchFile => {
            if let Err(fault) = launch_faults::check_book(book.text, asked.n) {
                put_book_fault(printer, book.name, fault);
            }
        }
        _ => put_groups(printer, reason, asked, book.text, file),
    }
}

// Puts why a launch is refused for its numbers, its book or the groups of its file. Its body is that of `refusal_head::put_head`: a printer on the run, one
// call, the place. One function for both would take the call as a closure, and the two would be no shorter.
pub fn put_why(out: &mut [u8], reason: Reason, asked: Asked, book: Named, file: Named) -> usize {
    let mut printer = Printer { bytes: out, at: 0 };
    put_reason(&mut printer, reason, asked, book, file);
    printer.at
}
