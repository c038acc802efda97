// The lines on standard output: decimal numbers with one blank between.
use activities::{Ack, Activity, Exchange, Receipt, Side, Store, StoreRefusal};
use std::fmt;

/// NUMBER ACK FINISHED: 0 or the refusal's; the number of the kind that is acknowledged, or `-`; 1 if both sides are told
/// that all is there.
#[derive(Clone, Copy)]
pub(crate) struct Answer(pub Result<Receipt, StoreRefusal>);

impl fmt::Display for Answer {
    fn fmt<W: fmt::Write>(&self, f: &mut fmt::Formatter<W>) -> fmt::Result {
        match self.0 {
            Ok(receipt) => {
                let ack = kind(receipt.ack);
                let finished = receipt.finished.client && receipt.finished.service;
                write!(f, "0 {ack} {}", u8::from(finished))
            }
            Err(refusal) => write!(f, "{} - 0", u8::from(refusal)),
        }
    }
}

fn kind(ack: Option<Ack>) -> &'static str {
    match ack {
        None => "-",
        Some(Ack::NegotiationAck) => "0",
        Some(Ack::InvocationAck) => "1",
        Some(Ack::ResultAck) => "2",
        Some(Ack::AdditionalAck) => "4",
    }
}

/// Three lines for each activity, in the order of its first taken message.
#[derive(Clone, Copy)]
pub(crate) struct Tables<'a>(pub &'a Store);

impl fmt::Display for Tables<'_> {
    fn fmt<W: fmt::Write>(&self, f: &mut fmt::Formatter<W>) -> fmt::Result {
        let held = self.0.used.min(16) as usize;
        for e in &self.0.exchanges[..held] {
            write!(f, "{}", Lines(e))?;
        }
        Ok(())
    }
}

/// The activity's numbers, then its row in either table, 0 the client's and 1 the service's.
#[derive(Clone, Copy)]
struct Lines<'a>(&'a Exchange);

impl fmt::Display for Lines<'_> {
    fn fmt<W: fmt::Write>(&self, f: &mut fmt::Formatter<W>) -> fmt::Result {
        let Activity {
            session,
            nonce,
            thread,
            client,
            service,
        } = self.0.activity;
        let complete = u8::from(first_store::complete(*self.0));
        writeln!(f, "{session} {nonce} {thread} {client} {service}")?;
        writeln!(f, "0 {complete}{}", Row(&self.0.client))?;
        writeln!(f, "1 {complete}{}", Row(&self.0.service))
    }
}

/// Each message held, as its kind and its fields.
#[derive(Clone, Copy)]
struct Row<'a>(&'a Side);

impl fmt::Display for Row<'_> {
    fn fmt<W: fmt::Write>(&self, f: &mut fmt::Formatter<W>) -> fmt::Result {
        let Side {
            negotiation,
            invocation,
            result,
            finished,
            additional,
        } = self.0;
        if negotiation.held {
            write!(
                f,
                " 0 {} {} {}",
                negotiation.list, negotiation.accepted, negotiation.extra
            )?;
        }
        if invocation.held {
            write!(f, " 1 {} {}", invocation.extra, invocation.word)?;
        }
        if result.held {
            write!(f, " 2 {} {}", result.extra, result.word)?;
        }
        if finished.held {
            write!(f, " 3 {}", finished.count)?;
        }
        for extra in &additional.extras[..additional.count.min(8) as usize] {
            write!(f, " 4 {extra}")?;
        }
        Ok(())
    }
}
