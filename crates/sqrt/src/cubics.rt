// A cubic polynomial for each of 32 intervals, by which the digits of a root are guessed.

// A pattern's last 19 digits tell a number within its interval. The five before them tell the
// interval: the last digit of the exponent, and the first four of the significand.
pub const INTERVAL: u64 = 1 << 19;

pub const INTERVALS: u64 = 32;

// What 1 is among the squares of numbers within an interval.
pub const SQUARE_UNIT: u64 = 1 << 16;

// What 1 is among the values of the polynomials.
pub const UNIT: u64 = 1 << 32;

// The coefficients c3, c2, c1 and c0 of `estimate`, where c2 is subtracted.
#[derive(Clone, Copy)]
pub struct Cubic(pub u32, pub u32, pub u32, pub u64);

// The polynomial of interval k. It goes through the root at the four zeros of a Chebyshev
// polynomial of the second kind, which makes the mean error least. Each coefficient is rounded to a
// whole number, and what that takes away is put into those below it. The last one has half a unit
// more, so that dropping the fraction rounds, and half of c2 less, since d2 is rounded down. One
// guess in 128 is not the nearest root. The table is a `match`, since a constant array would be
// stored at each call.
pub fn cubic_at(k: u64) -> Cubic {
    match k {
        0 => Cubic(171690, 5922829, 3036983841, 50952416069133568),
        1 => Cubic(148199, 5408876, 2946309715, 52520548149251340),
        2 => Cubic(128973, 4965143, 2863300397, 54043198037473014),
        3 => Cubic(113066, 4578901, 2786933543, 55524107661211498),
        4 => Cubic(99776, 4240242, 2716368076, 56966532366508486),
        5 => Cubic(88574, 3941346, 2650904810, 58373325148855123),
        6 => Cubic(79057, 3675975, 2589957145, 59747003007998919),
        7 => Cubic(70912, 3439091, 2533028727, 61089799871731344),
        8 => Cubic(63895, 3226591, 2479696383, 62403709253766949),
        9 => Cubic(57813, 3035101, 2429596796, 63690518989219027),
        10 => Cubic(52512, 2861826, 2382416055, 64951839771671469),
        11 => Cubic(47867, 2704428, 2337881310, 66189128793773640),
        12 => Cubic(43778, 2560945, 2295754154, 67403709477019723),
        13 => Cubic(40162, 2429712, 2255825183, 68596788060248377),
        14 => Cubic(36950, 2309314, 2217909659, 69769467628184452),
        15 => Cubic(34087, 2198539, 2181843857, 70922760056929277),
        16 => Cubic(121403, 4188072, 2147471865, 36028799549527177),
        17 => Cubic(104793, 3824654, 2083355584, 37137636376731418),
        18 => Cubic(91198, 3510887, 2024659131, 38214312438025445),
        19 => Cubic(79950, 3237773, 1970659613, 39261473675286210),
        20 => Cubic(70552, 2998303, 1920762282, 40281421966270074),
        21 => Cubic(62631, 2786952, 1874472766, 41276174682122393),
        22 => Cubic(55902, 2599307, 1831376259, 42247511611726453),
        23 => Cubic(50142, 2431804, 1791121788, 43197012379660653),
        24 => Cubic(45181, 2281545, 1753410130, 44126086613354413),
        25 => Cubic(40880, 2146141, 1717984374, 45035998503244115),
        26 => Cubic(37132, 2023617, 1684622549, 45927886981976772),
        27 => Cubic(33847, 1912320, 1653131733, 46802782439639788),
        28 => Cubic(30956, 1810862, 1623343331, 47661620677411472),
        29 => Cubic(28399, 1718066, 1595109284, 48505254634052340),
        30 => Cubic(26128, 1632932, 1568298960, 49334464308747582),
        _ => Cubic(24103, 1554602, 1542796589, 50149965205574883),
    }
}
