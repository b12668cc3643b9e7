// The causes of a refusal: one for each row of document 01's table, and for each error of document 02, under its word.
#![tactic(auto)]

ghost use Rattle.std.specs.Prelude.{◌≡◌};
ghost use Rattle.causes.specs.Causes.{cause_number};

#[derive(Clone, Copy, Debug, PartialEq, Eq, Hash)]
pub enum Cause {
    ShortTable,
    OverBright,
    OffScaleCondition,
    DarkWhite,
    LopsidedWhite,
    NoConditions,
    NoStandard,
    NoTolerance,
    ToleranceOffScale,
    SessionFull,
    NotABook,
    NoSuchShade,
    TooManyShades,
    OutOfOrder,
    ShortBuffer,
    NoSuchLight,
    UnknownSpacing,
    NoSuchTable,
    SpotCount,
    EmptyLook,
}

// The cause's number in the table.
impl From<Cause> for u32 {
    ghost from_gives = { λ cause n. n ≡ cause_number cause };

    fn from(cause: Cause) -> u32 {
        match cause {
            Cause::ShortTable => 1,
            Cause::OverBright => 2,
            Cause::OffScaleCondition => 3,
            Cause::DarkWhite => 4,
            Cause::LopsidedWhite => 5,
            Cause::NoConditions => 6,
            Cause::NoStandard => 7,
            Cause::NoTolerance => 8,
            Cause::ToleranceOffScale => 9,
            Cause::SessionFull => 10,
            Cause::NotABook => 11,
            Cause::NoSuchShade => 12,
            Cause::TooManyShades => 13,
            Cause::OutOfOrder => 14,
            Cause::ShortBuffer => 15,
            Cause::NoSuchLight => 16,
            Cause::UnknownSpacing => 17,
            Cause::NoSuchTable => 18,
            Cause::SpotCount => 19,
            Cause::EmptyLook => 20,
        }
    }
}
