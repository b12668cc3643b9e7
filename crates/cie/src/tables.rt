// The built-in tables, 81 rows each, 380 to 780 nm by 5 nm: the 1931 observer of GB/T 3977-2008 and the illuminants of CIE S 005.
ghost use Rattle.std.specs.Prelude.{◌≡◌, length};
ghost use Rattle.cie.specs.Spacing.{most_rows, filled};
ghost use Rattle.cie.specs.Tables.{observer_x, observer_y, observer_z, illuminant_a, illuminant_d65};
ghost use Rattle.cie.specs.Lights.{every_second, table_at};

use crate::spacing::{COARSE_ROWS, COARSE_SPACING, MOST_ROWS};

// The numbers of the lights.
pub const LIGHT_A: u32 = 1;

pub const LIGHT_D65: u32 = 2;

pub const OBSERVER_X: [u32; MOST_ROWS] = [
    1368, 2236, 4243, 7650, 14310, 23190, 43510, 77630, 134380, 214770, 283900, 328500, 348280,
    348060, 336200, 318700, 290800, 251100, 195360, 142100, 95640, 57950, 32010, 14700, 4900, 2400,
    9300, 29100, 63270, 109600, 165500, 225750, 290400, 359700, 433450, 512050, 594500, 678400,
    762100, 842500, 916300, 978600, 1026300, 1056700, 1062200, 1045600, 1002600, 938400, 854450,
    751400, 642400, 541900, 447900, 360800, 283500, 218700, 164900, 121200, 87400, 63600, 46770,
    32900, 22700, 15840, 11359, 8111, 5790, 4109, 2899, 2049, 1440, 1000, 690, 476, 332, 235, 166,
    117, 83, 59, 42,
];

pub const OBSERVER_Y: [u32; MOST_ROWS] = [
    39, 64, 120, 217, 396, 640, 1210, 2180, 4000, 7300, 11600, 16840, 23000, 29800, 38000, 48000,
    60000, 73900, 90980, 112600, 139020, 169300, 208020, 258600, 323000, 407300, 503000, 608200,
    710000, 793200, 862000, 914850, 954000, 980300, 994950, 1000000, 995000, 978600, 952000,
    915400, 870000, 816300, 757000, 694900, 631000, 566800, 503000, 441200, 381000, 321000, 265000,
    217000, 175000, 138200, 107000, 81600, 61000, 44580, 32000, 23200, 17000, 11920, 8210, 5723,
    4102, 2929, 2091, 1484, 1047, 740, 520, 361, 249, 172, 120, 85, 60, 42, 30, 21, 15,
];

pub const OBSERVER_Z: [u32; MOST_ROWS] = [
    6450, 10550, 20050, 36210, 67850, 110200, 207400, 371300, 645600, 1039050, 1385600, 1622960,
    1747060, 1782600, 1772110, 1744100, 1669200, 1528100, 1287640, 1041900, 812950, 616200, 465180,
    353300, 272000, 212300, 158200, 111700, 78250, 57250, 42160, 29840, 20300, 13400, 8750, 5750,
    3900, 2750, 2100, 1800, 1650, 1400, 1100, 1000, 800, 600, 340, 240, 190, 100, 50, 30, 20, 10,
    0, 0, 0, 0, 0, 0, 0, 0, 0, 0, 0, 0, 0, 0, 0, 0, 0, 0, 0, 0, 0, 0, 0, 0, 0, 0, 0,
];

pub const ILLUMINANT_A: [u32; MOST_ROWS] = [
    97951, 108996, 120853, 133543, 147080, 161480, 176753, 192907, 209950, 227883, 246709, 266425,
    287027, 308508, 330859, 354068, 378121, 403002, 428693, 455174, 482423, 510418, 539132, 568539,
    598611, 629320, 660635, 692525, 724959, 757903, 791326, 825193, 859470, 894124, 929120, 964423,
    1000000, 1035820, 1071840, 1108030, 1144360, 1180800, 1217310, 1253860, 1290430, 1326970,
    1363460, 1399880, 1436180, 1472350, 1508360, 1544180, 1579790, 1615160, 1650280, 1685100,
    1719630, 1753830, 1787690, 1821180, 1854290, 1887010, 1919310, 1951180, 1982610, 2013590,
    2044090, 2074110, 2103650, 2132680, 2161200, 2189200, 2216670, 2243610, 2270000, 2295850,
    2321150, 2345890, 2370080, 2393700, 2416750,
];

pub const ILLUMINANT_D65: [u32; MOST_ROWS] = [
    499755, 523118, 546482, 687015, 827549, 871204, 914860, 924589, 934318, 900570, 866823, 957736,
    1048650, 1109360, 1170080, 1174100, 1178120, 1163360, 1148610, 1153920, 1159230, 1123670,
    1088110, 1090820, 1093540, 1085780, 1078020, 1062960, 1047900, 1062390, 1076890, 1060470,
    1044050, 1042250, 1040460, 1020230, 1000000, 981671, 963342, 960611, 957880, 922368, 886856,
    893459, 900062, 898026, 895991, 886489, 876987, 854936, 832886, 834939, 836992, 818630, 800268,
    801207, 802146, 812462, 822778, 802810, 782842, 740027, 697213, 706652, 716091, 729790, 743490,
    679765, 616040, 657448, 698856, 724863, 750870, 693398, 635927, 550054, 464182, 566118, 668054,
    650941, 633828,
];

// Every second row of a table, from the first on, and zeros past the last; by index, since a proof does not learn what a loop over `iter_mut` in a
// `zip` wrote.
fn every_second(table: &[u32]) -> [u32; MOST_ROWS]
    requires { length table.now ≡ most_rows }
    ensures { result ≡ filled (every_second table.now) }
{
    let mut rows = [0; MOST_ROWS];
    for i in 0..COARSE_ROWS {
        rows[i] = table[2 * i];
    }
    rows
}

// The rows of a table at a spacing, and zeros past the last.
fn table_at(table: [u32; MOST_ROWS], spacing: u32) -> [u32; MOST_ROWS]
    requires { length table ≡ most_rows }
    ensures { result ≡ filled (table_at spacing table) }
{
    if spacing == COARSE_SPACING {
        every_second(&table)
    } else {
        table
    }
}

// The five functions that follow hold each table to its own definition; what they share is `table_at`.

// The observer's column x at a spacing, in 1/1,000,000.
#[tactic(auto, unfolding(crate::specs::Tables::observer_x))]
pub fn observer_x(spacing: u32) -> [u32; MOST_ROWS]
    ensures { result ≡ filled (table_at spacing observer_x) }
{
    table_at(OBSERVER_X, spacing)
}

// The observer's column y at a spacing, in 1/1,000,000.
#[tactic(auto, unfolding(crate::specs::Tables::observer_y))]
pub fn observer_y(spacing: u32) -> [u32; MOST_ROWS]
    ensures { result ≡ filled (table_at spacing observer_y) }
{
    table_at(OBSERVER_Y, spacing)
}

// The observer's column z at a spacing, in 1/1,000,000.
#[tactic(auto, unfolding(crate::specs::Tables::observer_z))]
pub fn observer_z(spacing: u32) -> [u32; MOST_ROWS]
    ensures { result ≡ filled (table_at spacing observer_z) }
{
    table_at(OBSERVER_Z, spacing)
}

// Illuminant A at a spacing, in 1/10,000.
#[tactic(auto, unfolding(crate::specs::Tables::illuminant_a))]
pub fn illuminant_a(spacing: u32) -> [u32; MOST_ROWS]
    ensures { result ≡ filled (table_at spacing illuminant_a) }
{
    table_at(ILLUMINANT_A, spacing)
}

// Illuminant D65 at a spacing, in 1/10,000.
#[tactic(auto, unfolding(crate::specs::Tables::illuminant_d65))]
pub fn illuminant_d65(spacing: u32) -> [u32; MOST_ROWS]
    ensures { result ≡ filled (table_at spacing illuminant_d65) }
{
    table_at(ILLUMINANT_D65, spacing)
}
