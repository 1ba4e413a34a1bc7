// Table A.1's row of an MW.
ghost use Rattle.std.specs.Prelude.{◌≡◌};
ghost use Rattle.rules.specs.Tables.{table_a1, class_of};
ghost use Rattle.tables.specs.Rows.{size_class_of};

// A row of table A.1: the MW from which it holds, a and b of dust, and the oxides of pulverised coal by mark.
#[derive(Clone, Copy)]
pub struct ClassRow {
    pub from: u16,
    pub pulverised: Option<(u32, u32)>,
    pub bed: Option<(u32, u32)>,
    pub oxides: [Option<u32>; 4],
}

// "Table A.1, in 0.01 kg/t", a row from each MW on.
const FROM_750: ClassRow = ClassRow {
    from: 750,
    pulverised: Some((923, 876)),
    bed: None,
    oxides: [None, None, Some(609), Some(410)],
};

const FROM_450: ClassRow = ClassRow {
    from: 450,
    pulverised: Some((920, 933)),
    bed: None,
    oxides: [Some(795), Some(672), Some(607), Some(408)],
};

const FROM_250: ClassRow = ClassRow {
    from: 250,
    pulverised: Some((921, 1113)),
    bed: Some((631, 754)),
    oxides: [Some(801), Some(665), Some(582), Some(407)],
};

const FROM_150: ClassRow = ClassRow {
    from: 150,
    pulverised: Some((933, 777)),
    bed: Some((624, 757)),
    oxides: [Some(768), Some(661), Some(561), Some(394)],
};

const FROM_75: ClassRow = ClassRow {
    from: 75,
    pulverised: Some((931, 918)),
    bed: Some((631, 727)),
    oxides: [Some(749), Some(658), Some(548), Some(386)],
};

const FROM_35: ClassRow = ClassRow {
    from: 35,
    pulverised: Some((936, 1044)),
    bed: Some((624, 724)),
    oxides: [Some(690), Some(592), Some(413), Some(304)],
};

const FROM_20: ClassRow = ClassRow {
    from: 20,
    pulverised: Some((916, 45)),
    bed: Some((630, 779)),
    oxides: [Some(647), Some(528), Some(392), Some(301)],
};

const FROM_9: ClassRow = ClassRow {
    from: 9,
    pulverised: Some((918, 756)),
    bed: Some((630, 897)),
    oxides: [Some(582), Some(407), Some(308), Some(296)],
};

// The row of an MW.
// Kept: a match and no table that is searched: a constant table is laid on the stack at each call (480 bytes, five times the instructions), and a
// `static` of rows that hold arrays is not covered by the check.
#[tactic(auto, unfolding(rules::specs::Tables::class_of, rules::specs::Tables::table_a1, rules::specs::Tables::class, law::specs::Words::pick))]
pub fn size_class(mw: u16) -> Option<ClassRow>
    ensures { size_class_of result ≡ class_of mw table_a1 }
{
    match mw {
        750.. => Some(FROM_750),
        450..=749 => Some(FROM_450),
        250..=449 => Some(FROM_250),
        150..=249 => Some(FROM_150),
        75..=149 => Some(FROM_75),
        35..=74 => Some(FROM_35),
        20..=34 => Some(FROM_20),
        9..=19 => Some(FROM_9),
        _ => None,
    }
}
