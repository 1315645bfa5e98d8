// A trial in the input and as numbers of a line: level, k, offers, how it was laid out; for each offer its number and its printed digits; the
// figures. The layout is the kind of its shape word, 2 or 5, the pairs or shops, and the treated shops, 0 for pairs. A figure stands as a
// number from 0: 2^31 is added.
use super::input;
use super::pen::Pen;
use limits::{FIGURES_MOST, OFFERS_MOST};
use trial::{Design, Labels, Level, Shape, Trial};

fn shifted(d: i32) -> usize {
    d.abs_diff(i32::MIN) as usize
}

fn figure(n: usize) -> i32 {
    ((n % 4294967296) as u32)
        .wrapping_sub(0x8000_0000)
        .cast_signed()
}

// (Crate benchcalls has the same for C; a test program stands on nothing of the benchmark's.)
fn layout(d: Design) -> [usize; 3] {
    match d {
        Design::Paired(pairs) => [2, pairs, 0],
        Design::Unpaired(shops, treated) => [5, shops, treated],
    }
}

fn offers(p: Pen, labels: &Labels) -> Pen {
    let mut q = p;
    for (code, digits) in labels.codes.iter().zip(&labels.digits) {
        q = q.put(*code as usize).put(usize::from(*digits));
    }
    q
}

pub(crate) fn print(p: Pen, t: Trial) -> Pen {
    let numbers = [t.level.a, t.level.b, t.shape.k, t.shape.offers];
    let q = p.each(&numbers, |n| n).each(&layout(t.shape.design), |n| n);
    offers(q, &t.labels).each(&t.figures, shifted)
}

// So many figures stand in the input; the others are zero.
fn read_figures(rt: HostRuntime) -> [i32; FIGURES_MOST] {
    let mut xs = [0i32; FIGURES_MOST];
    for x in xs.iter_mut().take(input::word(rt)) {
        *x = figure(input::word(rt));
    }
    xs
}

fn read_design(rt: HostRuntime) -> Design {
    let kind = input::word(rt);
    let units = input::word(rt);
    let treated = input::word(rt);
    if kind == 2 {
        return Design::Paired(units);
    }
    Design::Unpaired(units, treated)
}

pub(crate) fn read(rt: HostRuntime) -> Trial {
    let mut codes = [0u32; OFFERS_MOST];
    let mut digits = [0u8; OFFERS_MOST];
    for (code, printed) in codes.iter_mut().zip(&mut digits) {
        *code = (input::word(rt) % 4294967296) as u32;
        *printed = (input::word(rt) % 256) as u8;
    }
    Trial {
        level: Level {
            a: input::word(rt),
            b: input::word(rt),
        },
        shape: Shape {
            k: input::word(rt),
            offers: input::word(rt),
            design: read_design(rt),
        },
        labels: Labels { codes, digits },
        figures: read_figures(rt),
    }
}
