// The service card: why a call is refused, and the number by which C is told so. specs/Card.antt has the card under the same words.

// A row of the card. Where several apply, a call answers the one that it looks at first.
#[derive(Clone, Copy, Debug, PartialEq, Eq)]
pub enum Refusal {
    // the archive is not of the state's length; for Fresh, too short or too long
    Memory,
    // a state, a unit or a firmware is against its rule
    Foreign,
    // the live table is not of its length
    Table,
    // the stamp is out of range
    Clock,
    // there is no such file
    File,
    // the settings are locked
    Locked,
    // a group is against the rule: the place of the first, counted from 1, or 0 for a list that is not of 32 numbers
    Group(u8),
    // the record would be too long
    Long,
    // the trigger is neither 0 nor a Boolean
    Trigger,
    // the gateway is running
    Running,
    // the drafted files do not fit archive memory
    Room,
    // there is no such slot, or its entry is against the rule
    Alarm,
    // the reply buffer is too short
    Reply,
    // the frame is not the reply that was asked for, or the record in it has no stamp
    Garbled,
    // the record is all zeros
    Empty,
    // the place or the point names nothing
    Beyond,
}

// What C is told of a call that did its work.
pub const DONE: u32 = 0;

impl From<Refusal> for u32 {
    ghost use Rattle.std.specs.Prelude.{◌≡◌};
    ghost use Rattle.basics.specs.Card.{card_of};

    ghost from_gives = { λ refusal number. number ≡ (card_of refusal).number };

    fn from(refusal: Refusal) -> u32 {
        match refusal {
            Refusal::Memory => 1,
            Refusal::Foreign => 2,
            Refusal::Table => 3,
            Refusal::Clock => 4,
            Refusal::File => 5,
            Refusal::Locked => 6,
            Refusal::Group(_) => 7,
            Refusal::Long => 8,
            Refusal::Trigger => 9,
            Refusal::Running => 10,
            Refusal::Room => 11,
            Refusal::Alarm => 12,
            Refusal::Reply => 13,
            Refusal::Garbled => 14,
            Refusal::Empty => 15,
            Refusal::Beyond => 16,
        }
    }
}

impl Refusal {
    ghost use Rattle.std.specs.Prelude.{◌≡◌};
    ghost use Rattle.basics.specs.Card.{card_of};

    // The number that goes with the card's: a bad group's place, else 0.
    pub fn carried(self) -> u32
        ensures { result ≡ (card_of self).carried }
    {
        match self {
            Refusal::Group(place) => u32::from(place),
            _ => 0,
        }
    }
}
