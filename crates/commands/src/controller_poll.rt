ghost use Rattle.std.specs.Prelude.{◌≡◌};
ghost use Rattle.commands.specs.ControllerPoll.{poll_nmd0, poll_nmd1, poll_in};

use crate::dword::is_set;

// The changes that make a controller qualify for an entry: NMD1 bits 4:0 of a Controller Health Status Poll.
#[derive(Clone, Copy, Default)]
pub struct Selection {
    pub cwarn: bool,
    pub spare: bool,
    pub pdlu: bool,
    pub ctemp: bool,
    pub csts: bool,
}

// What a Controller Health Status Poll asks for.
#[derive(Clone, Copy, Default)]
pub struct ControllerHealthPoll {
    // Report All: controllers qualify whatever their changed flags
    pub report_all: bool,
    // include SR-IOV virtual functions, SR-IOV physical functions, and plain PCI functions
    pub incvf: bool,
    pub incpf: bool,
    pub incf: bool,
    // at most this number of entries and one more
    pub maxrent: u8,
    // the lowest Controller ID
    pub sctlid: u16,
    pub clear_changed_flags: bool,
    pub selection: Selection,
}

impl ControllerHealthPoll {
    pub(crate) fn nmd0(self) -> u32
        ensures { result ≡ poll_nmd0 self }
    {
        u32::from(self.sctlid)
            | u32::from(self.maxrent) << 16
            | u32::from(self.incf) << 24
            | u32::from(self.incpf) << 25
            | u32::from(self.incvf) << 26
            | u32::from(self.report_all) << 31
    }

    pub(crate) fn nmd1(self) -> u32
        ensures { result ≡ poll_nmd1 self }
    {
        u32::from(self.selection.csts)
            | u32::from(self.selection.ctemp) << 1
            | u32::from(self.selection.pdlu) << 2
            | u32::from(self.selection.spare) << 3
            | u32::from(self.selection.cwarn) << 4
            | u32::from(self.clear_changed_flags) << 31
    }

    // What two dwords ask for: a pair, which `From` would take as a tuple, and read no better.
    pub(crate) fn from_dwords(nmd0: u32, nmd1: u32) -> Self
        ensures { result ≡ poll_in nmd0 nmd1 }
    {
        ControllerHealthPoll {
            report_all: is_set(nmd0, 31),
            incvf: is_set(nmd0, 26),
            incpf: is_set(nmd0, 25),
            incf: is_set(nmd0, 24),
            maxrent: ((nmd0 >> 16) % 0x100) as u8,
            sctlid: (nmd0 % 0x1_0000) as u16,
            clear_changed_flags: is_set(nmd1, 31),
            selection: Selection {
                cwarn: is_set(nmd1, 4),
                spare: is_set(nmd1, 3),
                pdlu: is_set(nmd1, 2),
                ctemp: is_set(nmd1, 1),
                csts: is_set(nmd1, 0),
            },
        }
    }
}
