ghost use Rattle.std.specs.Prelude.{◌≡◌, Ok};
ghost use Rattle.commands.specs.Commands.{asked_of, command_of, asked_in, told};

use crate::controller_poll::ControllerHealthPoll;
use crate::dword::is_set;
use crate::error::ErrorReply;
use health::ChangedFlags;
use wire::Command;

// A request for health, or for the Configuration Identifier 02h (Health Status Change).
#[derive(Clone, Copy)]
pub enum HealthCommand {
    // NVM Subsystem Health Status Poll; `clear_status` clears the composite flags after the reply is made
    SubsystemHealthStatusPoll { clear_status: bool },
    ControllerHealthStatusPoll(ControllerHealthPoll),
    // clears these composite flags
    ConfigurationSet { clear: ChangedFlags },
    ConfigurationGet,
}

// The opcodes.
const SUBSYSTEM_HEALTH_STATUS_POLL: u8 = 0x01;

const CONTROLLER_HEALTH_STATUS_POLL: u8 = 0x02;

const CONFIGURATION_SET: u8 = 0x03;

const CONFIGURATION_GET: u8 = 0x04;

// The Configuration Identifier Health Status Change, in NMD0 bits 7:0.
const HEALTH_STATUS_CHANGE: u32 = 0x02;

// The opcode and the dwords of a request, which read back as itself. Bits that are not named are 0.
impl From<HealthCommand> for Command {
    ghost from_gives = { λ asked command. (command ≡ command_of (asked_of asked)) × (asked_in command ≡ Ok (asked_of asked)) };

    #[tactic(auto, using(health::proofs::Masks::flags_are_named, crate::proofs::ReadBack::poll_reads_back))]
    fn from(asked: HealthCommand) -> Command {
        match asked {
            HealthCommand::SubsystemHealthStatusPoll { clear_status } => Command {
                opcode: SUBSYSTEM_HEALTH_STATUS_POLL,
                nmd0: 0,
                nmd1: u32::from(clear_status) << 31,
            },
            HealthCommand::ControllerHealthStatusPoll(poll) => Command {
                opcode: CONTROLLER_HEALTH_STATUS_POLL,
                nmd0: poll.nmd0(),
                nmd1: poll.nmd1(),
            },
            HealthCommand::ConfigurationSet { clear } => Command {
                opcode: CONFIGURATION_SET,
                nmd0: HEALTH_STATUS_CHANGE,
                nmd1: u32::from(clear.bits()),
            },
            HealthCommand::ConfigurationGet => Command {
                opcode: CONFIGURATION_GET,
                nmd0: HEALTH_STATUS_CHANGE,
                nmd1: 0,
            },
        }
    }
}

// The request that an opcode and two dwords are, or the error reply that they get. Bits that are not named are ignored.
impl TryFrom<Command> for HealthCommand {
    type Error = ErrorReply;

    ghost try_from_gives = { λ command asked. told asked ≡ asked_in command };

    fn try_from(command: Command) -> Result<HealthCommand, ErrorReply> {
        match command.opcode {
            SUBSYSTEM_HEALTH_STATUS_POLL => Ok(HealthCommand::SubsystemHealthStatusPoll {
                clear_status: is_set(command.nmd1, 31),
            }),
            CONTROLLER_HEALTH_STATUS_POLL => Ok(HealthCommand::ControllerHealthStatusPoll(
                ControllerHealthPoll::from_dwords(command.nmd0, command.nmd1),
            )),
            CONFIGURATION_SET | CONFIGURATION_GET if command.nmd0 % 0x100 != HEALTH_STATUS_CHANGE =>
                Err(ErrorReply::InvalidParameter { byte: 8 }),
            CONFIGURATION_SET => Ok(HealthCommand::ConfigurationSet {
                clear: ChangedFlags::from_bits((command.nmd1 % 0x1_0000) as u16),
            }),
            CONFIGURATION_GET => Ok(HealthCommand::ConfigurationGet),
            _ => Err(ErrorReply::InvalidOpcode),
        }
    }
}
