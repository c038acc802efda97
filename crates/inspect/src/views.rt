//! The lines of a machine: its counts, its actors, and what there is of each view.
ghost use Rattle.std.specs.Prelude.{◌<◌};

use edge::Fields;
use protocol::phase::NOT_MADE;
use protocol::sets::{is_in, with};
use protocol::{Contents, Links, Queue, State, Status, View};
use std::fmt;

/// Every line of a machine.
#[derive(Clone, Copy)]
pub(crate) struct Lines<'a>(pub &'a State);

impl fmt::Display for Lines<'_> {
    fn fmt<W: fmt::Write>(&self, f: &mut fmt::Formatter<W>) -> fmt::Result {
        let m = self.0;
        writeln!(f, "M {} {} {} {}", m.stores, m.actors, m.made, up_mask(m))?;
        for a in 0..usize::from(m.actors.min(8)) {
            writeln!(
                f,
                "A {a} {} {}{}",
                m.homes[a],
                m.lists[a],
                Waiting(&m.queues[a])
            )?;
        }
        for v in 0..usize::from(m.made.min(16)) * 2 {
            write!(f, "{}", OfView { m, v })?;
        }
        Ok(())
    }
}

/// Bit p for a store p that is up.
fn up_mask(m: &State) -> u32 {
    let mut mask = 0;
    for (p, shelf) in m.shelves.iter().enumerate() {
        if shelf.up {
            mask = with(mask, p);
        }
    }
    mask
}

/// The views of a queue, oldest first, each as key.role.
#[derive(Clone, Copy)]
struct Waiting<'a>(&'a Queue);

impl fmt::Display for Waiting<'_> {
    fn fmt<W: fmt::Write>(&self, f: &mut fmt::Formatter<W>) -> fmt::Result {
        let q = self.0;
        for v in q.views.iter().take(usize::from(q.len)) {
            write!(f, " {}.{}", v / 2, v % 2)?;
        }
        Ok(())
    }
}

/// A view's number as key and role.
#[derive(Clone, Copy)]
struct KeyRole(usize);

impl fmt::Display for KeyRole {
    fn fmt<W: fmt::Write>(&self, f: &mut fmt::Formatter<W>) -> fmt::Result {
        write!(f, "{} {}", self.0 / 2, self.0 % 2)
    }
}

/// A set of causes, and the link of each, rising.
#[derive(Clone, Copy)]
struct Causes<'a> {
    set: u16,
    links: &'a [u8; 16],
}

impl fmt::Display for Causes<'_> {
    fn fmt<W: fmt::Write>(&self, f: &mut fmt::Formatter<W>) -> fmt::Result {
        write!(f, "{}", self.set)?;
        for (j, link) in self.links.iter().enumerate() {
            if is_in(u32::from(self.set), j) {
                write!(f, " {j}:{link}")?;
            }
        }
        Ok(())
    }
}

/// What there is of a view: its record, behind a receiver's its message, its repair, its entry, then what each store has.
#[derive(Clone, Copy)]
struct OfView<'a> {
    m: &'a State,
    v: usize,
    ghost bound: { v < 32 },
}

impl fmt::Display for OfView<'_> {
    fn fmt<W: fmt::Write>(&self, f: &mut fmt::Formatter<W>) -> fmt::Result {
        let m = self.m;
        let v = self.v;
        let view = KeyRole(v);
        writeln!(f, "V {view}{}", Record(&m.views[v]))?;
        let message = m.messages[v / 2];
        if v % 2 == 1 && message.flying {
            writeln!(f, "P {} {} {}", v / 2, message.own, message.word)?;
        }
        let repair = m.repairs[v];
        if repair.flying {
            writeln!(f, "R {view} {} {}", repair.destination, repair.own)?;
        }
        // The line's status: 0 to-send, 1 waiting, 2 done.
        let entry = m.entries[v];
        if let Some(status) = u8::from(entry.status).checked_sub(1) {
            writeln!(f, "E {view} {} {} {status}", entry.destination, entry.own)?;
        }
        for p in 0..usize::from(m.stores.min(8)) {
            write!(f, "{}", Place { m, p, v })?;
        }
        Ok(())
    }
}

/// A view's record at its actor; in phase 0 only the actor is set.
#[derive(Clone, Copy)]
struct Record<'a>(&'a View);

impl fmt::Display for Record<'_> {
    fn fmt<W: fmt::Write>(&self, f: &mut fmt::Formatter<W>) -> fmt::Result {
        let w = self.0;
        write!(f, " {} {}", w.actor, w.phase)?;
        if w.phase == NOT_MADE {
            return Ok(());
        }
        let changed = u8::from(w.changed);
        let causes = Causes {
            set: w.causes,
            links: &w.links,
        };
        write!(
            f,
            " {} {} {} {changed} {} {causes}",
            w.word, w.store, w.viewlink, w.tries
        )
    }
}

/// What a store has of a view and what is in flight to it: working state, checkpointed state, notes, copies.
#[derive(Clone, Copy)]
struct Place<'a> {
    m: &'a State,
    p: usize,
    v: usize,
    ghost p_bound: { p < 8 },
    ghost v_bound: { v < 32 },
}

impl fmt::Display for Place<'_> {
    fn fmt<W: fmt::Write>(&self, f: &mut fmt::Formatter<W>) -> fmt::Result {
        let m = self.m;
        let p = self.p;
        let v = self.v;
        let view = KeyRole(v);
        let at = p * 32 + v;
        let shelf = &m.shelves[p];
        let contents = &m.contents[at];
        let links = &m.links[p * 16 + v / 2];
        let working = Held {
            letters: "",
            p,
            view,
            held: is_in(shelf.held, v),
            viewlink: shelf.viewlinks[v],
            contents,
            links,
        };
        let checkpointed = Held {
            letters: "C",
            held: is_in(shelf.kept, v),
            viewlink: shelf.keptlinks[v],
            ..working
        };
        write!(f, "{working}{checkpointed}")?;
        let ack = is_in(shelf.acksowed, v);
        let uack = is_in(shelf.uacksowed, v);
        if ack || uack {
            writeln!(f, "N {p} {view} {} {}", u8::from(ack), u8::from(uack))?;
        }
        let copies = [m.records[at], m.acks[at], m.updates[at], m.uacks[at]];
        if copies != [0; 4] {
            writeln!(f, "F {p} {view}{}", Fields(&copies))?;
        }
        Ok(())
    }
}

/// What one of a store's two states has of a view: its contents and its viewlink, in lines that begin with the state's letters.
#[derive(Clone, Copy)]
struct Held<'a> {
    letters: &'a str,
    p: usize,
    view: KeyRole,
    held: bool,
    contents: &'a Contents,
    links: &'a Links,
    /// 0 for none, and p + 1 for store p.
    viewlink: u8,
}

impl fmt::Display for Held<'_> {
    fn fmt<W: fmt::Write>(&self, f: &mut fmt::Formatter<W>) -> fmt::Result {
        let Held {
            letters,
            p,
            view,
            contents,
            ..
        } = *self;
        if self.held {
            let causes = Causes {
                set: contents.causes,
                links: &self.links.to,
            };
            writeln!(
                f,
                "{letters}S {p} {view} {} {} {causes}",
                contents.asserter, contents.word
            )?;
        }
        if let Some(link) = self.viewlink.checked_sub(1) {
            writeln!(f, "{letters}L {p} {view} {link}")?;
        }
        Ok(())
    }
}
