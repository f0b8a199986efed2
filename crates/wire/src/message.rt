// What a request asks for: an opcode and the NVMe Management Dwords.
#[derive(Clone, Copy)]
pub struct Command {
    pub opcode: u8,
    pub nmd0: u32,
    pub nmd1: u32,
}

// A request as a carrier reads it.
#[derive(Clone, Copy)]
pub struct Request {
    // an endpoint's Command Slot Identifier (CSI), which the reply repeats
    pub tag: bool,
    pub command: Command,
    // Management Endpoint Buffer
    pub meb: bool,
    // how many bytes stand behind the dwords
    pub surplus: usize,
}

// A reply's head: its Response Message Status and its NVMe Management Response (24 bits).
#[derive(Clone, Copy)]
pub struct Head {
    pub status: u8,
    pub nmresp: u32,
}

// A carrier's kind number, and the lengths in bytes of its heads and of its requests.
#[derive(Clone, Copy)]
pub struct Lengths {
    // as `Carrier::KIND`
    pub kind: u8,
    pub head: usize,
    pub request: usize,
}
