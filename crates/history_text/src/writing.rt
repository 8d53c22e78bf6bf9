//! Entries, written.
ghost use Rattle.std.specs.Prelude.{◌≡◌, ◌≤◌, ◌+◌, ◌∷◌, length};
ghost use Rattle.entry_text.specs.Parts.{Adds};
ghost use Rattle.history_text.specs.Text.{act_text, behind_act, said_part, matched_part, dropped_part, reply_part, entry_text};

use entry_text::{put_brief, put_key, put_match, put_reply, put_said};
use mpi_base::{Act, Brief, Entry, Matched, Reply, Said};
use script_text::write_op;
use token_text::{Line, put, put_number};

fn put_act(out: &mut Line, act: &Act, packet: &Option<Brief>)
    requires room { length out.old.items + 667 ≤ 2048 }
    ensures { Adds 667 (act_text act.now ∷ behind_act act.now packet.now) out.old.items out.new.items }
{
    match act {
        Act::Call { thread, op } => {
            put(out, b" call ");
            put_number(out, u64::from(*thread));
            put(out, b" ");
            write_op(op, out);
        }
        Act::Answer { thread } => {
            put(out, b" answer ");
            put_number(out, u64::from(*thread));
        }
        Act::Deliver { from } => {
            put(out, b" deliver ");
            put_number(out, u64::from(*from));
            if let Some(packet) = packet {
                put_brief(out, packet);
            }
        }
        Act::Offer { key } => {
            put(out, b" offer");
            put_key(out, key);
        }
        Act::Settle { key } => {
            put(out, b" settle");
            put_key(out, key);
        }
        Act::Leave { ctx } => {
            put(out, b" leave ");
            put_number(out, u64::from(*ctx));
        }
        Act::Back { ctx } => {
            put(out, b" back ");
            put_number(out, u64::from(*ctx));
        }
    }
}

fn put_said_part(out: &mut Line, said: Option<Said>)
    requires room { length out.old.items + 38 ≤ 2048 }
    ensures { Adds 38 (said_part said) out.old.items out.new.items }
{
    match said {
        None => {}
        Some(said) => {
            put(out, b" #");
            put_said(out, said);
        }
    }
}

fn put_matched_part(out: &mut Line, matched: &Option<Matched>)
    requires room { length out.old.items + 71 ≤ 2048 }
    ensures { Adds 71 (matched_part matched.now) out.old.items out.new.items }
{
    match matched {
        None => {}
        Some(matched) => {
            put(out, b" #");
            put_match(out, matched);
        }
    }
}

fn put_dropped_part(out: &mut Line, dropped: Option<u64>)
    requires room { length out.old.items + 28 ≤ 2048 }
    ensures { Adds 28 (dropped_part dropped) out.old.items out.new.items }
{
    match dropped {
        None => {}
        Some(count) => {
            put(out, b" # drop ");
            put_number(out, count);
        }
    }
}

fn put_reply_part(out: &mut Line, reply: &Option<Reply>)
    requires room { length out.old.items + 611 ≤ 2048 }
    ensures { Adds 611 (reply_part reply.now) out.old.items out.new.items }
{
    match reply {
        None => {}
        Some(reply) => {
            put(out, b" =>");
            put_reply(out, reply);
        }
    }
}

/// Makes `out` the line of an entry, without its line feed, at most 1,435 bytes.
#[tactic(auto, using(crate::proofs::Joined::text_parts))]
pub fn write_entry(entry: &Entry, out: &mut Line)
    ensures text { out.new.items ≡ entry_text entry.now }
    ensures short { length out.new.items ≤ 1435 }
{
    out.clear();
    put_number(out, u64::from(entry.choice.rank));
    put_act(out, &entry.choice.act, &entry.brief);
    put_said_part(out, entry.said);
    put_matched_part(out, &entry.matched);
    put_dropped_part(out, entry.dropped);
    put_reply_part(out, &entry.reply);
}
