//! What the types of an entry's parts say of it. Each function reads the parts, and changes nothing.
ghost use Rattle.std.specs.Prelude.{◌≤◌, length, All};
ghost use Rattle.mpi_base.specs.MemberLists.{AreRanks};
ghost use Rattle.token_text.specs.Words.{FitsIf, IsRankOut};
ghost use Rattle.token_text.specs.Texts.{hex_form};
ghost use Rattle.token_text.specs.Lists.{rank_outs_form};
ghost use Rattle.entry_text.specs.Labels.{most_16, most_64};
ghost use Rattle.entry_text.specs.Replies.{IsMatched};
ghost use Rattle.history_text.specs.Ranges.{KeyInRange, ActInRange, SaidInRange, BriefInRange, ReplyInRange, EntryInRange};

use mpi_base::{Act, Brief, Entry, Key, Matched, Members, Payload, RankOut, RankOuts, Reply, Said};

fn members_in_range(members: &Members)
    ensures { AreRanks members.now }
{
    let _len = members.len();
}

fn key_in_range(key: &Key)
    ensures { KeyInRange key.now }
{
    let _parent = key.parent;
    let _number = key.number;
    let _tag = key.tag.bytes();
    members_in_range(&key.members);
}

fn act_in_range(act: &Act)
    ensures { ActInRange act.now }
{
    match act {
        Act::Call { thread, op: _ } | Act::Answer { thread } => {
            let _thread = *thread;
        }
        Act::Deliver { from } => {
            let _from = *from;
        }
        Act::Offer { key } | Act::Settle { key } => key_in_range(key),
        Act::Leave { ctx } | Act::Back { ctx } => {
            let _ctx = *ctx;
        }
    }
}

fn said_in_range(said: Said)
    ensures { SaidInRange said }
{}

fn said_part(said: Option<Said>)
    ensures { FitsIf SaidInRange said }
{}

fn brief_in_range(brief: &Brief)
    ensures { BriefInRange brief.now }
{
    match brief {
        Brief::Up { round, own: _, key } => {
            let _round = *round;
            key_in_range(key);
        }
        Brief::Down { round, said, key } => {
            let _round = *round;
            said_in_range(*said);
            key_in_range(key);
        }
        Brief::Share { key } | Brief::Shares { key } => key_in_range(key),
        Brief::Msg { ctx, lane, number } => {
            let _ctx = *ctx;
            let _lane = *lane;
            let _number = *number;
        }
        Brief::Marker { ctx } => {
            let _ctx = *ctx;
        }
    }
}

fn brief_part(brief: &Option<Brief>)
    ensures { FitsIf BriefInRange brief.now }
{
    match brief {
        None => {}
        Some(brief) => brief_in_range(brief),
    }
}

fn matched_part(matched: Option<Matched>)
    ensures { FitsIf IsMatched matched }
{}

fn dropped_part(dropped: Option<u64>)
    ensures { FitsIf (λ n. n ≤ most_64) dropped }
{}

fn short_part(number: Option<u16>)
    ensures { FitsIf (λ n. n ≤ most_16) number }
{}

fn rank_out_in_range(out: RankOut)
    ensures { IsRankOut out }
{}

fn rank_outs_in_range(outs: &RankOuts)
    ensures { rank_outs_form.Fits outs.now }
{
    for out in outs.as_slice() {
        rank_out_in_range(*out);
    }
}

fn bytes_in_range(bytes: &[u8])
    requires { length bytes.now ≤ 256 }
    ensures { hex_form.Fits bytes.now }
{}

fn payload_in_range(payload: &Payload)
    ensures { hex_form.Fits payload.now }
{
    bytes_in_range(payload.bytes());
}

fn reply_in_range(reply: &Reply)
    ensures { ReplyInRange reply.now }
{
    match reply {
        Reply::Fine | Reply::Refused(_) | Reply::Null | Reply::Like(_) => {}
        Reply::Psets(number) | Reply::Size0(number) => {
            let _number = *number;
        }
        Reply::NthName(name) => {
            let _bytes = name.bytes();
        }
        Reply::Group(members) => members_in_range(members),
        Reply::Ranks(outs) => rank_outs_in_range(outs),
        Reply::Size(size) => {
            let _size = *size;
        }
        Reply::Rank(rank) => short_part(*rank),
        Reply::Comm { ctx, rank, size } => {
            let _ctx = *ctx;
            let _rank = *rank;
            let _size = *size;
        }
        Reply::Received {
            source,
            tag,
            payload,
        } => {
            short_part(*source);
            short_part(*tag);
            payload_in_range(payload);
        }
    }
}

fn reply_part(reply: &Option<Reply>)
    ensures { FitsIf ReplyInRange reply.now }
{
    match reply {
        None => {}
        Some(reply) => reply_in_range(reply),
    }
}

fn entry_in_range(entry: &Entry)
    ensures { EntryInRange entry.now }
{
    let _rank = entry.choice.rank;
    act_in_range(&entry.choice.act);
    brief_part(&entry.brief);
    said_part(entry.said);
    matched_part(entry.matched);
    dropped_part(entry.dropped);
    reply_part(&entry.reply);
}

/// The numbers, texts and lists of all entries are in their ranges.
pub fn entries_are_in_range(entries: &[Entry])
    ensures { All EntryInRange entries.now }
{
    for entry in entries {
        entry_in_range(entry);
    }
}
