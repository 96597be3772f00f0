//! A message: its kind, what it carries, and which older messages it must not overtake.

ghost use Rattle.std.specs.Prelude.{◌≡◌, ℕ, ◌<◌};
ghost use Rattle.sva_model.specs.LinkOrder.{is_page_request, is_order_down, stays_behind};

use std::marker::Model;

/// What an Invalidate Request covers of a PASID (PCI Express Base 5.0, section 10.3.1), as it is sent.
#[derive(Clone, Copy, Debug, PartialEq, Eq)]
pub enum Scope {
    /// Every page.
    All,
    /// The pages of a code, which `Range::decode` reads: a range of 1 to 512 aligned pages.
    Code {
        /// The address field, as the number of a page of 4096 bytes, below 2^36.
        page: u64,
        /// The bit S: the range has more than one page.
        s: bool,
    },
}

/// The response code of a Page Request Group Response (PCI Express Base 5.0, section 10.4.2).
#[derive(Clone, Copy, Debug, PartialEq, Eq)]
pub enum Code {
    /// 0000b: each page of the group is mapped.
    Success,
    /// 0001b: the group asked for what isn't given.
    InvalidRequest,
    /// 1111b: the function's page request interface is disabled.
    ResponseFailure,
}

impl Code {
    ghost use Rattle.sva_msg.specs.Code.{bits_of};

    /// The four bits of the Response Code field: 0, 1 or 15.
    pub fn bits(self) -> u8
        ensures { result ≡ bits_of self }
    {
        match self {
            Code::Success => 0,
            Code::InvalidRequest => 1,
            Code::ResponseFailure => 15,
        }
    }
}

/// The Completion Count field of an Invalidate Completion, 0 to 7; 0 stands for 8 (PCI Express Base 5.0,
/// section 10.3.2).
#[derive(Clone, Copy, Debug, PartialEq, Eq)]
pub struct CountField {
    field: u8,
}

impl Model for CountField {
    ghost Value = { ℕ };

    ghost view = { λ c. c.field };

    ghost invariant = { λ c. c.field < 8 };

    ghost inverse = { λ n. record { field = n } };
}

impl CountField {
    /// The field with these three bits, 0 to 7.
    pub fn new(field: u8) -> Self
        requires { field < 8 }
        ensures { result ≡ field }
    {
        CountField { field }
    }

    /// The three bits, 0 to 7.
    pub fn get(self) -> u8
        ensures value { result ≡ self }
        ensures below { result < 8 }
    {
        self.field
    }
}

/// A Page Request (PCI Express Base 5.0, section 10.4.1).
#[derive(Clone, Copy, Debug, PartialEq, Eq)]
pub struct PageRequest {
    /// The PASID: 1 to 32 of its 20 bits (PCI Express Base 5.0, section 6.20).
    pub pasid: u32,
    /// The Page Request Group Index: 0 to 31 of its nine bits.
    pub index: u8,
    /// The number of the page, below 2^36; a page has 4096 bytes.
    pub page: u64,
    /// R: the page is to be read.
    pub read: bool,
    /// W: the page is to be written.
    pub write: bool,
    /// L: the last request of its group.
    pub last: bool,
}

/// The eleven kinds of message, each with the fields that it carries. None carries a binding.
#[derive(Clone, Copy, Debug, PartialEq, Eq)]
pub enum Kind {
    /// Down: the endpoint may use this PASID.
    Start {
        /// The PASID: 1 to 32 of its 20 bits (PCI Express Base 5.0, section 6.20).
        pasid: u32,
    },
    /// Down: the endpoint is to stop using this PASID.
    Stop {
        /// The PASID: 1 to 32 of its 20 bits (PCI Express Base 5.0, section 6.20).
        pasid: u32,
    },
    /// Down: a function level reset (PCI Express Base 5.0, section 6.6.2).
    Reset,
    /// Down: a Translation Completion (PCI Express Base 5.0, section 10.2.3).
    Completion {
        /// The tag of the request that it completes, 0 to 31.
        tag: u8,
        /// The number of the frame, below 4096; a frame has 4096 bytes. 0 where there is no translation.
        frame: u32,
        /// The bit R: there is a translation.
        read: bool,
        /// The bit W: it allows writing.
        write: bool,
    },
    /// Down: an Invalidate Request (PCI Express Base 5.0, section 10.3.1).
    Invalidate {
        /// The ITag, five bits: 0 to 31.
        itag: u8,
        /// The PASID: 1 to 32 of its 20 bits (PCI Express Base 5.0, section 6.20).
        pasid: u32,
        /// A range of pages, or all pages, of the PASID.
        scope: Scope,
    },
    /// Down: a Page Request Group Response (PCI Express Base 5.0, section 10.4.2).
    Response {
        /// The PASID: 1 to 32 of its 20 bits (PCI Express Base 5.0, section 6.20).
        pasid: u32,
        /// The Page Request Group Index: 0 to 31 of its nine bits.
        index: u8,
        /// The response code, one of three of its four bits.
        code: Code,
    },
    /// Up: a Translation Request (PCI Express Base 5.0, section 10.2.2).
    Request {
        /// The tag by which its completion finds it, 0 to 31.
        tag: u8,
        /// The PASID: 1 to 32 of its 20 bits (PCI Express Base 5.0, section 6.20).
        pasid: u32,
        /// The number of the page, below 2^36; a page has 4096 bytes.
        page: u64,
    },
    /// Up: an Invalidate Completion (PCI Express Base 5.0, section 10.3.2).
    Invalidated {
        /// The ITag Vector: bit T stands for ITag T, 0 to 31.
        vector: u32,
        /// The Completion Count field, 0 to 7: how many completions there are in all, 1 to 8.
        count: CountField,
    },
    /// Up: a Page Request.
    PageRequest(PageRequest),
    /// Up: a Stop Marker, after which the function sends nothing under this PASID (PCI Express Base 5.0, section
    /// 10.4.1).
    Marker {
        /// The PASID: 1 to 32 of its 20 bits (PCI Express Base 5.0, section 6.20).
        pasid: u32,
    },
    /// Up: the function level reset is done.
    ResetDone,
}

impl Kind {
    ghost use Rattle.sva_msg.specs.Kind.{kind_of, is_ordered};

    fn is_page_request(self) -> bool
        ensures { result ≡ is_page_request (kind_of self) }
    {
        matches!(self, Kind::PageRequest(_))
    }

    /// Whether a start, a stop or a reset must not overtake an older message of this kind.
    fn is_order_down(self) -> bool
        ensures { result ≡ is_order_down (kind_of self) }
    {
        match self {
            Kind::Start { .. }
            | Kind::Stop { .. }
            | Kind::Reset
            | Kind::Invalidate { .. }
            | Kind::Response { .. } => true,
            Kind::Completion { .. }
            | Kind::Request { .. }
            | Kind::Invalidated { .. }
            | Kind::PageRequest(_)
            | Kind::Marker { .. }
            | Kind::ResetDone => false,
        }
    }

    /// Whether there is an older message that one of this kind must not overtake.
    pub(crate) fn is_ordered(self) -> bool
        ensures { result ≡ is_ordered (kind_of self) }
    {
        match self {
            Kind::PageRequest(request) => request.last,
            Kind::Start { .. }
            | Kind::Stop { .. }
            | Kind::Marker { .. }
            | Kind::ResetDone
            | Kind::Reset => true,
            Kind::Completion { .. }
            | Kind::Invalidate { .. }
            | Kind::Response { .. }
            | Kind::Request { .. }
            | Kind::Invalidated { .. } => false,
        }
    }

    /// Whether a message of this kind must not overtake an older one of the same endpoint.
    fn stays_behind(self, older: Kind) -> bool
        ensures { result ≡ stays_behind (kind_of self) (kind_of older) }
    {
        match self {
            Kind::PageRequest(request) => request.last && older.is_page_request(),
            Kind::Marker { .. } => older.is_page_request(),
            Kind::Start { .. } | Kind::Stop { .. } | Kind::Reset => older.is_order_down(),
            Kind::ResetDone => true,
            Kind::Completion { .. }
            | Kind::Invalidate { .. }
            | Kind::Response { .. }
            | Kind::Request { .. }
            | Kind::Invalidated { .. } => false,
        }
    }
}

/// A message to or from an endpoint.
#[derive(Clone, Copy, Debug, PartialEq, Eq)]
pub struct Message {
    /// The number of the endpoint, below 8.
    pub endpoint: u64,
    /// What the message is, and its fields.
    pub kind: Kind,
}

impl Message {
    ghost use Rattle.sva_msg.specs.Kind.{is_up, is_down};
    ghost use Rattle.sva_msg.specs.Bag.{must_follow};

    /// Whether the endpoint sends it to its host.
    pub fn is_up(&self) -> bool
        ensures { result ≡ is_up self.now.kind }
    {
        match self.kind {
            Kind::Request { .. }
            | Kind::Invalidated { .. }
            | Kind::PageRequest(_)
            | Kind::ResetDone
            | Kind::Marker { .. } => true,
            Kind::Start { .. }
            | Kind::Stop { .. }
            | Kind::Reset
            | Kind::Completion { .. }
            | Kind::Invalidate { .. }
            | Kind::Response { .. } => false,
        }
    }

    /// Whether the host sends it to the endpoint.
    pub fn is_down(&self) -> bool
        ensures { result ≡ is_down self.now.kind }
    {
        !self.is_up()
    }

    /// Whether it must not overtake an older message.
    pub(crate) fn must_follow(&self, older: &Message) -> bool
        ensures { result ≡ must_follow self.now older.now }
    {
        self.endpoint == older.endpoint && self.kind.stays_behind(older.kind)
    }
}
