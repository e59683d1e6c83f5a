//! The text of each reply (docs/COMMANDS.md, "Control lines").

ghost use Rattle.std.specs.Prelude.{◌≡◌, ◌≤◌, ◌<◌, ◌+◌, ◌*◌, ◌^◌, ◌++◌, length};
ghost use Rattle.std.specs.List.{flat_map};
ghost use Rattle.fault_code.specs.Code.{code_text};
ghost use Rattle.bpf_formats.specs.Hex.{hex_digits};
ghost use Rattle.control_line.specs.Reason.{refusal_text};
ghost use Rattle.control_line.specs.Reply.{reply_text, spaced_word};
ghost use Rattle.control_line.specs.body.Making.{IsShort};
ghost use Rattle.control_line.specs.declared.reply.TheConstants.{REPLY_LIMIT};
ghost use Rattle.control_line.specs.declared.reply.LineAnswer.TheVariants as answer;

use crate::reason::Reason;
use crate::reply::judged::{judged_reply, malformed_reply};
use crate::reply::{LineAnswer, Reply, WINDOW};
use fault_code::Code;
use ipv4_fields::Endpoint;
use read_section::Reclaimed;

impl Reply {
    fn push_code(&mut self, code: Code)
        requires { length self.old ≤ 8 }
        ensures appended { self.new ≡ self.old ++ code_text code }
        ensures len { length self.new ≤ 64 }
    {
        let mut letter = [0; 4];
        self.push(code.letter.encode_utf8(&mut letter));
        self.push_number(code.number as u64);
        if let Some(place) = code.place {
            self.push(" ");
            self.push_number(place as u64);
        }
    }

    /// Makes the reply that refuses for this reason.
    pub fn refused(reason: Reason) -> Reply
        ensures text { result ≡ refusal_text reason }
        ensures short { length result ≤ 64 }
    {
        let mut reply = Reply::empty();
        reply.push("refused ");
        reply.push_code(reason.code());
        reply
    }

    fn line_refused(number: u32, reason: Reason) -> Reply
        ensures { result ≡ reply_text (answer.LineRefused number reason) }
    {
        let mut reply = Reply::refused(reason);
        reply.push(" line ");
        reply.push_number(number as u64);
        reply
    }

    fn published(version: u64) -> Reply
        ensures { result ≡ reply_text (answer.Published version) }
    {
        let mut reply = Reply::empty();
        reply.push("ok version ");
        reply.push_number(version);
        reply
    }

    fn shown(version: u64, groups: usize, members: usize, charge: u64) -> Reply
        ensures { result ≡ reply_text (answer.Shown version groups members charge) }
    {
        let mut reply = Reply::empty();
        reply.push("version ");
        reply.push_number(version);
        reply.push(" groups ");
        reply.push_number(groups as u64);
        reply.push(" members ");
        reply.push_number(members as u64);
        reply.push(" charge ");
        reply.push_number(charge);
        reply
    }

    fn group_read(
        version: u64,
        index: u32,
        groups: usize,
        key: Endpoint,
        members: usize,
        selector: usize,
    ) -> Reply
        requires groups { groups < 10 ^ 4 }
        requires members { members < 10 ^ 4 }
        requires selector { selector < 10 ^ 4 }
        ensures { result ≡ reply_text (answer.GroupRead version index groups key members selector) }
    {
        let mut reply = Reply::empty();
        reply.push("version ");
        reply.push_number(version);
        reply.push(" group ");
        reply.push_below::<10>(index as u64);
        reply.push(" of ");
        reply.push_below::<4>(groups as u64);
        reply.push(" ");
        key.append_to(&mut reply);
        reply.push(" members ");
        reply.push_below::<4>(members as u64);
        reply.push(" selector ");
        reply.push_below::<4>(selector as u64);
        reply
    }

    fn member_read(
        version: u64,
        index: u32,
        members: usize,
        id: u32,
        to: Endpoint,
        filter: usize,
        locked: bool,
    ) -> Reply
        requires members { members < 10 ^ 4 }
        requires filter { filter < 10 ^ 4 }
        ensures { result ≡ reply_text (answer.MemberRead version index members id to filter locked) }
    {
        let mut reply = Reply::empty();
        reply.push("version ");
        reply.push_number(version);
        reply.push(" member ");
        reply.push_below::<10>(index as u64);
        reply.push(" of ");
        reply.push_below::<4>(members as u64);
        reply.push(" ");
        reply.push_below::<10>(id as u64);
        reply.push(" ");
        to.append_to(&mut reply);
        reply.push(" filter ");
        reply.push_below::<4>(filter as u64);
        reply.push(" locked ");
        reply.push_below::<1>(if locked { 1 } else { 0 });
        reply
    }

    // The last `count` hexadecimal digits.
    fn push_hex(&mut self, count: usize, number: u64)
        requires { length self.old + count ≤ REPLY_LIMIT }
        ensures appended { self.new ≡ self.old ++ hex_digits count number }
        ensures len { length self.new ≡ length self.old + count }
    {
        if count == 0 {
            return;
        }
        self.push_hex(count - 1, number / 16);
        let digit = (number % 16) as u8;
        self.push_digit(if digit < 10 {
            b'0' + digit
        } else {
            b'a' + (digit - 10)
        });
    }

    fn push_words(&mut self, words: &[u64])
        requires room { length self.old + 17 * length words.now ≤ REPLY_LIMIT }
        ensures { self.new ≡ self.old ++ flat_map spaced_word words.now }
    {
        for word in words {
            self.push(" ");
            self.push_hex(16, *word);
        }
    }

    fn words_read(version: u64, place: u32, count: usize, words: [u64; WINDOW]) -> Reply
        requires version { version < 10 ^ 15 }
        requires count { count < 10 ^ 4 }
        ensures { result ≡ reply_text (answer.WordsRead version place count words) }
    {
        let mut reply = Reply::empty();
        reply.push("version ");
        reply.push_below::<15>(version);
        reply.push(" words ");
        let place = place as usize;
        if place >= count {
            reply.push_number(place as u64);
            reply.push(" of ");
            reply.push_below::<4>(count as u64);
            return reply;
        }
        reply.push_below::<4>(place as u64);
        reply.push(" of ");
        reply.push_below::<4>(count as u64);
        reply.push_words(&words[..(count - place).min(WINDOW)]);
        reply
    }

    fn swept(reclaimed: Reclaimed) -> Reply
        ensures { result ≡ reply_text (answer.Swept reclaimed) }
    {
        let mut reply = Reply::empty();
        reply.push("reclaimed ");
        reply.push_number(reclaimed.first);
        reply.push(" ");
        reply.push_number(reclaimed.count);
        reply
    }

    pub(crate) fn of(answer: LineAnswer) -> Reply
        requires { IsShort answer }
        ensures { result ≡ reply_text answer }
    {
        match answer {
            LineAnswer::Refused(reason) => Reply::refused(reason),
            LineAnswer::LineRefused { number, reason } => Reply::line_refused(number, reason),
            LineAnswer::Published { version } => Reply::published(version),
            LineAnswer::Shown {
                version,
                groups,
                members,
                charge,
            } => Reply::shown(version, groups, members, charge),
            LineAnswer::GroupRead {
                version,
                index,
                groups,
                key,
                members,
                selector,
            } => Reply::group_read(version, index, groups, key, members, selector),
            LineAnswer::MemberRead {
                version,
                index,
                members,
                id,
                to,
                filter,
                locked,
            } => Reply::member_read(version, index, members, id, to, filter, locked),
            LineAnswer::WordsRead {
                version,
                place,
                count,
                words,
            } => Reply::words_read(version, place, count, words),
            LineAnswer::PacketJudged { version, verdict } => judged_reply(version, verdict),
            LineAnswer::PacketMalformed { version, why } => malformed_reply(version, why),
            LineAnswer::Swept(reclaimed) => Reply::swept(reclaimed),
        }
    }
}
