// Two firmwares are in use, and have alarm files of different depths.
ghost use Rattle.std.specs.Prelude.{◌≡◌};
ghost use Rattle.state.specs.Firmware.{good_firmware, alarm_depth};

// The firmwares in use. Numbers and no enum: C hands a firmware in and stores it as a number, and every call judges the stored one again.
const OLDER_FIRMWARE: u32 = 73;

const NEWER_FIRMWARE: u32 = 74;

// Whether a firmware is in use. It comes in 32 bits, so that none is cut before it is judged.
#[tactic(auto, unfolding(crate::specs::Firmware::good_firmware))]
pub fn is_firmware_good(firmware: u32) -> bool
    ensures { result ≡ good_firmware firmware }
{
    (OLDER_FIRMWARE..=NEWER_FIRMWARE).contains(&firmware)
}

// The most records of the alarm file.
#[tactic(auto, unfolding(crate::specs::Firmware::alarm_depth))]
pub fn alarm_depth(firmware: u32) -> u16
    ensures { result ≡ alarm_depth firmware }
{
    if firmware < NEWER_FIRMWARE { 150 } else { 500 }
}
