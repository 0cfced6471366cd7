// The gateway's state, in parts by what writes them. A call changes it where it stands; C hands it in and gets it back by value. The
// parts leave no padding byte, so that a stored state can be compared and summed byte by byte. C's header fixes the fields: an array by file
// for each thing that a file has, and a bool beside what counts where it is on.
ghost use Rattle.std.specs.Prelude.{◌≡◌};
ghost use Rattle.state.specs.State.{fresh_state};

use archive::alarms::Slot;
use archive::layout::Definitions;

// What Fresh fixes: the archive memory's length, our unit, the date order and the firmware.
#[repr(C)]
#[derive(Clone, Copy, Debug, PartialEq, Eq)]
pub struct Site {
    pub archive_length: u32,
    pub unit: u8,
    pub day_first: bool,
    pub firmware: u16,
}

#[repr(C)]
#[derive(Clone, Copy, Debug, PartialEq, Eq)]
pub struct Flags {
    pub running: bool,
    pub unlocked: bool,
    pub pending: bool,
}

// `scanned` says that a scan was accepted, and `booleans` are then the latest one's.
#[repr(C)]
#[derive(Clone, Copy, Debug, PartialEq, Eq)]
pub struct Seen {
    pub scanned: bool,
    pub booleans: [u8; 16],
}

// The pointers are those of files 1 to 11; the alarm file's is the last.
#[repr(C)]
#[derive(Clone, Copy, Debug, PartialEq, Eq)]
pub struct Files {
    pub layout: Definitions,
    pub pointers: [u16; 11],
}

// The requested numbers, of files 1 to 11.
#[repr(C)]
#[derive(Clone, Copy, Debug, PartialEq, Eq)]
pub struct Line {
    pub requested: [u16; 11],
}

#[repr(C)]
#[derive(Clone, Copy, Debug, PartialEq, Eq)]
pub struct Settings {
    pub draft: Definitions,
    pub triggers: [u16; 10],
    pub slots: [Slot; 32],
}

// The settings come last: what stands behind 32 slots is hard to find for the prover.
#[repr(C)]
#[derive(Clone, Copy, Debug, PartialEq, Eq)]
pub struct State {
    pub site: Site,
    pub flags: Flags,
    pub seen: Seen,
    pub files: Files,
    pub line: Line,
    pub settings: Settings,
}

impl State {
    // A new gateway's: all flags off, files idle, triggers and slots 0, pointers and requested numbers 0.
    // Zeros are written out, as the rules state a new gateway: which part is 0 can be read here.
    #[tactic(auto, unfolding(crate::specs::State::fresh_state))]
    pub fn fresh(day_first: bool, unit: u8, firmware: u16, archive_length: u32) -> State
        ensures { result ≡ fresh_state day_first unit firmware archive_length }
    {
        let idle = Definitions {
            groups: [0; 320],
            limits: [0; 10],
        };
        let off = Slot {
            point: 0,
            transducer: 0,
            kind: 0,
        };
        State {
            site: Site {
                archive_length,
                unit,
                day_first,
                firmware,
            },
            flags: Flags {
                running: false,
                unlocked: false,
                pending: false,
            },
            seen: Seen {
                scanned: false,
                booleans: [0; 16],
            },
            files: Files {
                layout: idle,
                pointers: [0; 11],
            },
            line: Line { requested: [0; 11] },
            settings: Settings {
                draft: idle,
                triggers: [0; 10],
                slots: [off; 32],
            },
        }
    }
}
