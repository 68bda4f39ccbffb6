// What is said of a launch that goes through: the s_groups of its table, in the atoms of the book.
#![tactic(auto)]

ghost use Rattle.std.specs.Prelude.{◌≡◌};
ghost use Rattle.nodes.specs.NodeSets.{node_limit};
ghost use Rattle.print.specs.Sheets.{sheet, put};
ghost use Rattle.print.specs.Puts.{Puts};
ghost use Rattle.launch_report.specs.Launched.{quoted, member, members_from, named, group_line, group_lines, own_part, own_each, own_lines, groups_in, launched_lines};

use nodes::NODE_LIMIT;
use print::Printer;
use sound_table::SoundTable;

// The atoms of a book: its first n lines are those of the nodes, and those of the s_groups stand behind them.
#[derive(Clone, Copy)]
struct Atoms<'a> {
    book: &'a [u8],
    n: u32,
}

// Puts an atom in quotes, behind a space.
fn put_atom(printer: &mut Printer, atom: &[u8])
    ensures { Puts printer.old printer.new (quoted atom.now) }
{
    printer.put_bytes(b" '");
    printer.put_bytes(atom);
    printer.put_bytes(b"'");
}

impl Atoms<'_> {
    // Puts the atom of a node, if it is in the set.
    #[tactic(auto, using(print::specs::Puts::puts_none), unfolding(crate::specs::Launched::member))]
    fn put_member(&self, printer: &mut Printer, set: u64, node: u32)
        ensures { Puts printer.old printer.new (member self.now.book.now set node) }
    {
        if nodes::has(set, node) {
            put_atom(printer, book::line(self.book, node as usize));
        }
    }

    // Puts the atoms of a set of nodes. Over all nodes, as `members_from` of launch_report/Launched.
    fn put_members(&self, printer: &mut Printer, set: u64)
        ensures { Puts printer.old printer.new (members_from node_limit 0 self.now.book.now set) }
    {
        for node in 0..NODE_LIMIT {
            self.put_member(printer, set, node);
        }
    }

    // Puts the number and the atom of an s_group.
    fn put_named(&self, printer: &mut Printer, s: u32)
        ensures { Puts printer.old printer.new (named self.now.book.now self.now.n s) }
    {
        printer.put_number(s as u64);
        if 0 < s {
            let line = self.n as usize + (s - 1) as usize;
            put_atom(printer, book::line(self.book, line));
        }
    }

    // Puts the line of an s_group: its number, its atom, the atoms of its members.
    fn put_group_line(&self, printer: &mut Printer, s: u32, set: u64)
        ensures { Puts printer.old printer.new (group_line self.now.book.now self.now.n s set) }
    {
        printer.put_bytes(b"group ");
        self.put_named(printer, s);
        self.put_members(printer, set);
        printer.put_bytes(b"\n");
    }

    // Puts the line of an s_group of a node, if the node is one of its members: its number, its atom.
    fn put_own_line(&self, printer: &mut Printer, node: u32, s: u32, set: u64)
        ensures { Puts printer.old printer.new (own_part self.now.book.now self.now.n node s set) }
    {
        if nodes::has(set, node) {
            printer.put_bytes(b"own ");
            self.put_named(printer, s);
            printer.put_bytes(b"\n");
        }
    }

    // Puts a line for each s_group of a sound table.
    fn put_groups(&self, printer: &mut Printer, table: SoundTable<'_>)
        ensures { Puts printer.old printer.new (group_lines self.now.book.now self.now.n (groups_in table.entry.words.now)) }
    {
        for (word, set) in table.contents().iter().zip(table.members()) {
            self.put_group_line(printer, layout::group_name(*word) as u32, *set);
        }
    }

    // Puts a line for each of them that has the node. A loop beside that of put_groups: each puts lines of its own, and one loop for both would take a
    // closure with the contract of either.
    fn put_own_groups(&self, printer: &mut Printer, node: u32, table: SoundTable<'_>)
        ensures { Puts printer.old printer.new (own_each self.now.book.now self.now.n node (groups_in table.entry.words.now)) }
    {
        for (word, set) in table.contents().iter().zip(table.members()) {
            self.put_own_line(printer, node, layout::group_name(*word) as u32, *set);
        }
    }

    // Puts the same, or a line that says that there is none.
    fn put_own(&self, printer: &mut Printer, node: u32, table: SoundTable<'_>)
        ensures { Puts printer.old printer.new (own_lines self.now.book.now self.now.n node (groups_in table.entry.words.now)) }
    {
        let members = table.members();
        let grouped = nodes::union_all(members, members.len());
        if nodes::has(grouped, node) {
            self.put_own_groups(printer, node, table);
        } else {
            printer.put_bytes(b"own none\n");
        }
    }

    // Puts that a launch went through, the s_groups of its table, and those of the starting node.
    fn put_lines(&self, printer: &mut Printer, start: u32, words: &[u64])
        ensures { Puts printer.old printer.new (launched_lines self.now.book.now self.now.n start words.now) }
    {
        printer.put_bytes(b"ok 0\n");
        if table::is_sound(words) {
            let table = SoundTable { words };
            self.put_groups(printer, table);
            self.put_own(printer, start, table);
        } else {
            printer.put_bytes(b"own none\n");
        }
    }
}

// Puts what is said of a launch that goes through: the s_groups of its table, and those of the starting node.
pub fn put_launched(out: &mut [u8], book: &[u8], n: u32, start: u32, table: &[u64]) -> usize
    ensures { sheet out.new result ≡ put (sheet out.old 0) (launched_lines book.now n start table.now) }
{
    let mut printer = Printer { bytes: out, at: 0 };
    Atoms { book, n }.put_lines(&mut printer, start, table);
    printer.at
}
