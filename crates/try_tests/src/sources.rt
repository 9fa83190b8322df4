//! Sources over all constructs, written by hand.

/// A source, with readings that are enough for some tasks.
#[derive(Clone, Copy)]
pub struct Source {
    pub text: &'static str,
    pub readings: &'static [u16],
}

/// Sums readings, and sends each sum.
pub const SUM: &str =
    "shared unsigned n = 0; task a { n = n + sense(); emit(n); transition_to(a); } entry a;";

/// Two private scalars, then a task that waits for a reading.
pub const TWO: &str =
    "shared unsigned x; shared unsigned y; task t { x = x + 1; y = y + 2; transition_to(u); } \
     task u { x = sense(); transition_to(u); } entry t;";

/// Scalars that are only read, read first, and written first.
const SCALARS: &str = "shared unsigned a = 3; shared int b = -7; shared unsigned c; \
     task p { unsigned k = a; c = k + sense(); b = b - 1; transition_to(q); } \
     task q { a = c ^ a; c = 0; transition_to(p); } entry p;";

/// An array as a ring, and its sum.
const RING: &str = "shared unsigned ring[3]; shared unsigned at; shared unsigned sum; \
     task put { ring[at] = sense(); at = at + 1; if (at == 3) { at = 0; transition_to(add); } transition_to(put); } \
     task add { unsigned i; sum = 0; for (i = 0; i < 3; i++) { sum = sum + ring[i]; } emit(sum); transition_to(put); } entry put;";

/// Stores to the same element, past the end, and reads of what was just stored.
const ELEMENTS: &str = "shared unsigned a[2]; shared unsigned b[4]; shared unsigned n; \
     task t { a[0] = a[0] + 1; a[0] = a[0] + a[1]; a[1] = a[0]; a[2] = 9; b[n] = a[1] + a[7]; n = (n + 1) % 5; \
     emit(b[3]); transition_to(t); } entry t;";

/// Signed and unsigned comparisons, all logic.
const ORDERS: &str = "shared int s = -2; shared unsigned u = 40000; shared unsigned m; \
     task t { int r = sense(); m = 0; if (s < r) { m = m | 1; } if (u < r) { m = m | 2; } if (s <= -2 && r >= 0) { m = m | 4; } \
     else if (s > 3 || !(r == 1)) { m = m | 8; } else { m = ~m; } s = -s; emit(m); transition_to(t); } entry t;";

/// Products, quotients and rests, also by 0, and shifts.
const PRODUCTS: &str = "shared unsigned p = 300; shared unsigned q; shared int h = -9; \
     task t { unsigned d = sense(); q = p / d; p = p * 3 + q % 7; h = h >> 1; q = (q << 3) ^ (p >> 9); emit(q); emit(p % d); \
     transition_to(t); } entry t;";

/// Loops within loops, with an `if` that leaves early.
const LOOPS: &str = "shared unsigned g[4]; shared unsigned k; \
     task t { unsigned i; unsigned j; for (i = 0; i < 2; i++) { for (j = 0; j < 2; j++) { g[i * 2 + j] = g[i * 2 + j] + i + j; \
     if (sense() == 0) { k = k + 10; transition_to(u); } } } k = k + 1; transition_to(t); } \
     task u { k = k - 3; transition_to(t); } entry t;";

/// Emits in a loop, more of them than transitions.
const EMITS: &str =
    "shared unsigned c = 65534; task t { unsigned i; for (i = 0; i < 5; i++) { emit(c + i); } c = c + sense(); transition_to(t); } entry t;";

/// Three tasks in a ring, with an array that none writes.
const TABLE: &str = "shared unsigned zero[3]; shared unsigned x = 1; shared unsigned y; \
     task a { y = zero[x] + x; transition_to(b); } task b { x = y + sense(); transition_to(c); } \
     task c { unsigned z = x; if (z & 1) { emit(z); } x = z; transition_to(a); } entry a;";

/// A long that passes a word, and its high word.
pub const TOTAL: &str = "shared unsigned long n = 65535UL; shared unsigned h; \
     task a { n = n + sense(); h = n >> 16; transition_to(a); } entry a;";

/// Longs that are read first and written first, beside words and an int below 0.
const LONGS: &str =
    "shared int s = -5; shared unsigned long n = 65530; shared unsigned long last; shared unsigned c = 7; \
     task t { unsigned r = sense(); last = n - r; n = n + r + s; if (last < n) { c = c + 1; emit(n >> 16); } emit(n); transition_to(u); } \
     task u { last = last ^ (n << 3); if (!(last & 7) || n == 65541UL) { s = s - 1; } else { s = -n >> 15; } transition_to(t); } entry t;";

/// Functions with locals in registers and in RAM, that change variables, send and return early.
const CALLS: &str = "shared unsigned n; shared unsigned x = 2; shared unsigned a[2]; \
     unsigned put(unsigned v) { x = v; if (v & 1) { return v; } emit(v); a[v & 1] = a[0] + n; return v + x; } \
     unsigned wide(unsigned c, unsigned d) { unsigned e = put(d); unsigned f = c + e; unsigned g = f + c; unsigned h = g + n; unsigned j = 2; unsigned i; \
     for (i = 0; i < 2; i++) { if (h == 9) { return put(i); } h = h + put(i) * c + j; } n = h; return h + g + f; } \
     task t { unsigned k = x; n = n + wide(k, sense()) - k; emit(put(n) + wide(1, 2)); transition_to(u); } \
     task u { emit(put(sense()) + x); transition_to(t); } entry t;";

pub const SOURCES: [Source; 13] = [
    Source {
        text: SUM,
        readings: &[5, 7, 9, 11],
    },
    Source {
        text: TWO,
        readings: &[3, 1],
    },
    Source {
        text: SCALARS,
        readings: &[1, 65535, 4, 8],
    },
    Source {
        text: RING,
        readings: &[10, 20, 30, 40],
    },
    Source {
        text: ELEMENTS,
        readings: &[],
    },
    Source {
        text: ORDERS,
        readings: &[1, 65535, 40001, 0],
    },
    Source {
        text: PRODUCTS,
        readings: &[7, 0, 65535, 2],
    },
    Source {
        text: LOOPS,
        readings: &[1, 2, 3, 4, 5, 0, 7, 8, 9, 10],
    },
    Source {
        text: EMITS,
        readings: &[1, 3, 65535],
    },
    Source {
        text: TABLE,
        readings: &[2, 5, 6],
    },
    Source {
        text: TOTAL,
        readings: &[1, 65535, 65535],
    },
    Source {
        text: LONGS,
        readings: &[16, 65535, 0, 9],
    },
    Source {
        text: CALLS,
        readings: &[3, 65534, 1, 8],
    },
];

/// Of arrays, of emits, of control flow and of longs.
pub const CUT_TWICE: [Source; 4] = [
    Source {
        text: RING,
        readings: &[10, 20, 30, 40],
    },
    Source {
        text: EMITS,
        readings: &[1, 3, 65535],
    },
    Source {
        text: LOOPS,
        readings: &[1, 2, 3, 4, 5, 0, 7, 8, 9, 10],
    },
    Source {
        text: LONGS,
        readings: &[16, 65535, 0, 9],
    },
];

/// An array as a ring; each task takes a reading.
const RING_OF_READINGS: &str = "shared unsigned ring[3]; shared unsigned at; shared unsigned sum; \
     task put { ring[at] = ring[at] + sense(); at = at + 1; emit(ring[0]); if (at == 3) { at = 0; transition_to(add); } transition_to(put); } \
     task add { unsigned i; sum = sense(); for (i = 0; i < 3; i++) { sum = sum + ring[i]; } emit(sum); transition_to(put); } entry put;";

/// Scalars that each path writes first, so that they stay in place, and one that is read before.
const IN_PLACE: &str = "shared unsigned last = 9; shared unsigned twice; shared int seen = -3; \
     task a { last = sense(); twice = last + last; emit(twice); transition_to(b); } \
     task b { unsigned r = sense(); if (r > last) { seen = seen + 1; twice = r; } else { twice = 1; } emit(seen); emit(twice + last); transition_to(a); } \
     entry a;";

/// Three neighbours that are read first, and several words sent.
const NEIGHBOURS: &str = "shared unsigned x; shared unsigned y = 7; shared unsigned z = 65530; \
     task t { unsigned r = sense(); x = x + r; y = y + x; z = z - y; emit(x); emit(y); emit(z); transition_to(t); } entry t;";

/// Two longs, one made of the other.
const TWO_LONGS: &str = "shared unsigned long n = 65535UL; shared unsigned long m = 70000UL; \
     task t { unsigned r = sense(); m = m + n + r; n = n + m; emit(n); transition_to(t); } entry t;";

/// Sources each of whose tasks takes a reading: of arrays, of scalars in place, of neighbours and sends, of longs.
pub const SAVED: [Source; 4] = [
    Source {
        text: RING_OF_READINGS,
        readings: &[10, 20, 30, 40, 50, 60],
    },
    Source {
        text: IN_PLACE,
        readings: &[4, 8, 15, 16, 23, 42],
    },
    Source {
        text: NEIGHBOURS,
        readings: &[1, 65535, 4, 8, 20, 9],
    },
    Source {
        text: TWO_LONGS,
        readings: &[1, 65535, 5, 65535, 0, 9],
    },
];
