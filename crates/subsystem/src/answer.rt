// What a request that was read is answered, at one Responder.
ghost use Rattle.std.specs.Prelude.{◌≡◌, ℕ, ◌*◌, ◌^◌, ◌≤◌, cond, List, map, Ok};
ghost use Rattle.health.specs.Rows.{RowValues, row_of};
ghost use Rattle.polls.specs.Shown.{status_of};
ghost use Rattle.commands.specs.Commands.{asked_of, subsystem_poll};
ghost use Rattle.commands.specs.Status.{head_of};
ghost use Rattle.model.specs.Requests.{largest_id, health_poll, by_command};
ghost use Rattle.subsystem.specs.Replies.{ReplyIs, Serves, polled_drive, drive_shown, responder_with};

use commands::{ControllerHealthPoll, ErrorReply, HealthCommand};
use health::{ChangedFlags, Row};
use polls::{SubsystemStatus, subsystem_health, write_entries};
use register::{Port, Register};
use wire::{Head, Request};

// The memory for the data of a reply: 255 entries of 16 bytes.
pub(crate) type Payload = [u8; 4080];

// The head of a reply, how many bytes of data stand behind it, and the Responder's composite flags afterwards.
#[derive(Clone, Copy)]
pub(crate) struct Answered {
    pub(crate) head: Head,
    pub(crate) length: usize,
    pub(crate) composite: ChangedFlags,
}

// What a request sees at one Responder: the register, the drive's status, the ports in use, and the Responder's composite flags.
// The Responder's rows stand beside it: the borrow checker covers no call that lends a `&mut` field beside the other references.
#[derive(Drop)]
pub(crate) struct Polled<'a, R> {
    pub(crate) register: &'a R,
    pub(crate) status: SubsystemStatus,
    pub(crate) ports: &'a [Port],
    pub(crate) composite: ChangedFlags,
}

// The head of a reply to a request that succeeds.
fn success(nmresp: u32) -> Head
    ensures { result ≡ head_of 0x00 nmresp }
{
    Head {
        status: 0x00,
        nmresp,
    }
}

// The head of a reply with so many entries: NMRESP bits 23:16 are their number.
fn entries_head(found: usize) -> Head
    requires { found ≤ 255 }
    ensures { result ≡ head_of 0x00 (found * 2 ^ 16) }
{
    success((found as u32) << 16)
}

// A reply without data.
fn head_alone(head: Head, composite: ChangedFlags) -> Answered
    ensures { result ≡ record { head = head; length = 0; composite = composite } }
{
    Answered {
        head,
        length: 0,
        composite,
    }
}

// The largest Controller ID, 0 without controllers.
fn largest_id<R: Register>(register: &R) -> u16
    ensures { result ≡ largest_id (R.Register.meaning register.now).controllers }
{
    register
        .get(register.len().saturating_sub(1))
        .map_or(0, |controller| controller.id)
}

// The composite flags, unless they are cleared.
fn unless_cleared(composite: ChangedFlags, clear_status: bool) -> ChangedFlags
    ensures { result.bits ≡ cond clear_status 0 composite.bits }
{
    if clear_status {
        ChangedFlags::none()
    } else {
        composite
    }
}

impl<R: Register> Polled<'_, R> {
    // A Controller Health Status Poll.
    fn answer_controller_poll(
        &self,
        own: &mut [Row],
        poll: ControllerHealthPoll,
        payload: &mut Payload,
    ) -> Answered
        ensures { (kind : ℕ) → ReplyIs (health_poll (polled_drive (R.Register.meaning self.now.register.now)) (responder_with kind self.now.composite.bits (map row_of own.old)) poll) kind result (map row_of own.new) payload.old payload.new }
    {
        if largest_id(self.register) < poll.sctlid {
            return head_alone(
                ErrorReply::InvalidParameter { byte: 8 }.into(),
                self.composite,
            );
        }
        if poll.maxrent == 255 {
            return head_alone(
                ErrorReply::InvalidParameter { byte: 10 }.into(),
                self.composite,
            );
        }
        let found = write_entries(self.register, own, poll, payload).unwrap();
        Answered {
            head: entries_head(found),
            length: 16 * found,
            composite: self.composite,
        }
    }

    // An NVM Subsystem Health Status Poll.
    fn answer_subsystem_poll(&self, clear_status: bool, payload: &mut Payload) -> Answered
        ensures { (kind : ℕ) (ws : List RowValues) → ReplyIs (by_command (drive_shown (R.Register.meaning self.now.register.now) (status_of self.now.status) self.now.ports.now) (responder_with kind self.now.composite.bits ws) (Ok (subsystem_poll clear_status))) kind result ws payload.old payload.new }
    {
        let bytes = subsystem_health(
            self.register,
            self.status,
            self.ports,
            self.composite,
        ).to_bytes();
        payload[..8].copy_from_slice(&bytes);
        Answered {
            head: success(0),
            length: 8,
            composite: unless_cleared(self.composite, clear_status),
        }
    }

    // One of the four commands.
    fn answer_command(
        &self,
        own: &mut [Row],
        command: HealthCommand,
        payload: &mut Payload,
    ) -> Answered
        ensures { (kind : ℕ) → ReplyIs (by_command (drive_shown (R.Register.meaning self.now.register.now) (status_of self.now.status) self.now.ports.now) (responder_with kind self.now.composite.bits (map row_of own.old)) (Ok (asked_of command))) kind result (map row_of own.new) payload.old payload.new }
    {
        match command {
            HealthCommand::SubsystemHealthStatusPoll { clear_status } => {
                self.answer_subsystem_poll(clear_status, payload)
            }
            HealthCommand::ControllerHealthStatusPoll(poll) => {
                self.answer_controller_poll(own, poll, payload)
            }
            HealthCommand::ConfigurationSet { clear } => {
                head_alone(success(0), self.composite.difference(clear))
            }
            HealthCommand::ConfigurationGet => head_alone(success(0), self.composite),
        }
    }

    // A request, with the error replies in their order. `own` are the rows of the Responder.
    pub(crate) fn answer_request(
        &self,
        own: &mut [Row],
        request: Request,
        payload: &mut Payload,
    ) -> Answered
        ensures { Serves (R.Register.meaning self.now.register.now) (status_of self.now.status) self.now.ports.now self.now.composite.bits (map row_of own.old) request result (map row_of own.new) payload.old payload.new }
    {
        if request.surplus != 0 {
            return head_alone(ErrorReply::InvalidCommandSize.into(), self.composite);
        }
        if request.meb {
            return head_alone(
                ErrorReply::InvalidParameter { byte: 2 }.into(),
                self.composite,
            );
        }
        match HealthCommand::try_from(request.command) {
            Ok(command) => self.answer_command(own, command, payload),
            Err(error) => head_alone(error.into(), self.composite),
        }
    }
}
