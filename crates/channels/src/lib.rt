// Messages, and the first-in first-out channels that hold them. Unused room holds READY, so taking
// a message writes it back.
#![tactic(auto)]

ghost use Rattle.std.specs.Prelude.{◌≡◌, ℕ, ltb, true, false, refl};
ghost use Rattle.channels.specs.Channels.{no_request, is_ready, front_of, empty1, empty3, popped3, put1, put3, ends_ready};
ghost use Rattle.channels.specs.declared.Message.{Message};
ghost use Rattle.std.proofs.Common.{rules, tests};

use numbers::GateNo;

// What a LOCK asks for.
#[derive(Clone, Copy, Debug, PartialEq, Eq)]
pub struct Request {
    pub gate: GateNo,
    pub vector: u8,
}

#[derive(Clone, Copy, Debug, PartialEq, Eq)]
pub enum Message {
    Ready,
    Lock(Request),
    Commit(GateNo),
    Abort(GateNo),
}

// What the channels of both sizes have. A full channel stays as it is.
pub trait Channel: Copy + Drop {
    ghost ROOM: { ℕ };

    ghost empty: { Self };

    ghost count: { Self → ℕ };

    ghost first: { Self → Message };

    ghost popped: { Self → Self };

    ghost put: { Self → Message → Self };

    const ROOM: u8;

    fn empty() -> Self
        ensures { result ≡ empty };

    fn count(self) -> u8
        ensures { result ≡ count self };

    // The oldest message, or the filler.
    fn first(self) -> Message
        ensures { result ≡ first self };

    // Without its oldest message.
    fn popped(self) -> Self
        ensures { result ≡ popped self };

    fn put(self, message: Message) -> Self
        ensures { result ≡ put self message };

    fn front(self) -> Option<Message>
        ensures { result ≡ front_of (count self) (first self) }
    {
        if self.count() == 0 {
            None
        } else {
            Some(self.first())
        }
    }

    fn has_room(self) -> bool
        ensures { result ≡ ltb (count self) ROOM }
    {
        self.count() < Self::ROOM
    }

    ghost empty_has_none: { count empty ≡ 0 };

    ghost empty_has_room: { ltb (count empty) ROOM ≡ true };

    ghost full_stays: { (c : Self) (m : Message) → ltb (count c) ROOM ≡ false → put c m ≡ c };
}

// Two structs with named places, and not one with an array: `delivery_keeps_sound` asks of a state how long
// its lists are, and would have to ask of each channel how many places it has.

// From a gate to a task and from a task to a task there is room for one message.
#[derive(Clone, Copy, Debug, PartialEq, Eq)]
pub struct Channel1 {
    pub count: u8,
    pub first: Message,
}

// From a task to a gate there is room for three. The first is the oldest.
#[derive(Clone, Copy, Debug, PartialEq, Eq)]
pub struct Channel3 {
    pub count: u8,
    pub first: Message,
    pub second: Message,
    pub third: Message,
}

// The filler of a waiting list.
pub fn no_request() -> Request
    ensures { result ≡ no_request }
{
    Request {
        gate: GateNo(0),
        vector: 0,
    }
}

impl Message {
    pub fn is_ready(self) -> bool
        ensures { result ≡ is_ready self }
    {
        matches!(self, Message::Ready)
    }
}

impl Channel for Channel1 {
    ghost ROOM = { 1 };

    ghost empty = { empty1 };

    ghost count = { λ c. c.count };

    ghost first = { λ c. c.first };

    ghost popped = { λ c. empty1 };

    ghost put = { put1 };

    ghost empty_has_none = { refl };

    ghost empty_has_room = { refl };

    ghost full_stays = { Prim.search (rules, tests) };

    const ROOM: u8 = 1;

    fn empty() -> Self
        ensures { result ≡ empty1 }
    {
        Channel1 {
            count: 0,
            first: Message::Ready,
        }
    }

    fn count(self) -> u8
        ensures { result ≡ self.count }
    {
        self.count
    }

    fn first(self) -> Message
        ensures { result ≡ self.first }
    {
        self.first
    }

    fn popped(self) -> Self
        ensures { result ≡ empty1 }
    {
        Channel1::empty()
    }

    fn put(self, message: Message) -> Self
        ensures { result ≡ put1 self message }
    {
        if self.count == 0 {
            Channel1 {
                count: 1,
                first: message,
            }
        } else {
            self
        }
    }
}

impl Channel for Channel3 {
    ghost ROOM = { 3 };

    ghost empty = { empty3 };

    ghost count = { λ c. c.count };

    ghost first = { λ c. c.first };

    ghost popped = { popped3 };

    ghost put = { put3 };

    ghost empty_has_none = { refl };

    ghost empty_has_room = { refl };

    ghost full_stays = { Prim.search (rules, tests) };

    const ROOM: u8 = 3;

    fn empty() -> Self
        ensures { result ≡ empty3 }
    {
        Channel3 {
            count: 0,
            first: Message::Ready,
            second: Message::Ready,
            third: Message::Ready,
        }
    }

    fn count(self) -> u8
        ensures { result ≡ self.count }
    {
        self.count
    }

    fn first(self) -> Message
        ensures { result ≡ self.first }
    {
        self.first
    }

    fn popped(self) -> Self
        ensures { result ≡ popped3 self }
    {
        Channel3 {
            count: self.count.saturating_sub(1),
            first: self.second,
            second: self.third,
            third: Message::Ready,
        }
    }

    fn put(self, message: Message) -> Self
        ensures { result ≡ put3 self message }
    {
        match self.count {
            0 => Channel3 {
                count: 1,
                first: message,
                ..self
            },
            1 => Channel3 {
                count: 2,
                second: message,
                ..self
            },
            2 => Channel3 {
                count: 3,
                third: message,
                ..self
            },
            _ => self,
        }
    }
}

impl Channel3 {
    // Whether the newest message is a READY.
    pub fn ends_ready(self) -> bool
        ensures { result ≡ ends_ready self }
    {
        match self.count {
            0 => false,
            1 => self.first.is_ready(),
            2 => self.second.is_ready(),
            _ => self.third.is_ready(),
        }
    }
}
