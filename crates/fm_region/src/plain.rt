// The rule of regions once more, plainly, for tests: a region is known by its first class, the home of each of its classes.
pub(crate) const MOST: usize = 4;

pub(crate) const PAIRS: [(usize, usize); 6] = [(0, 1), (0, 2), (1, 2), (0, 3), (1, 3), (2, 3)];

/// Up to four classes, which pairs of them are apart by the digits of a number in base two, and the homes.
#[derive(Clone, Copy)]
pub(crate) struct Plain {
    pub(crate) classes: usize,
    pub(crate) apart: usize,
    pub(crate) homes: [usize; MOST],
}

impl Plain {
    pub(crate) fn new(classes: usize, apart: usize) -> Plain {
        Plain {
            classes,
            apart,
            homes: [0, 1, 2, 3],
        }
    }

    pub(crate) fn are_apart(&self, c: usize, d: usize) -> bool {
        let mut rest = self.apart;
        for pair in PAIRS.iter() {
            let (a, b) = *pair;
            if rest % 2 == 1 && ((a, b) == (c, d) || (a, b) == (d, c)) {
                return true;
            }
            rest /= 2;
        }
        false
    }

    pub(crate) fn home(&self, c: usize) -> usize {
        self.homes.get(c).copied().unwrap_or(c)
    }

    // Whether two classes of two regions are apart.
    fn parts(&self, c: usize, d: usize) -> bool {
        self.home(c) != self.home(d) && self.are_apart(c, d)
    }

    fn outside(&self, c: usize) -> usize {
        (0..self.classes).filter(|d| self.parts(c, *d)).count()
    }

    fn with_many(&self, r: usize, many: usize) -> usize {
        (0..self.classes)
            .filter(|c| self.home(*c) == r && many <= self.outside(*c))
            .count()
    }

    fn is_open(&self, r: usize, k: usize) -> bool {
        for a in 0..k {
            if a < self.with_many(r, k - a) {
                return true;
            }
        }
        false
    }

    fn first_open(&self, k: usize) -> Option<usize> {
        (0..self.classes).find(|r| self.home(*r) == *r && self.is_open(*r, k))
    }

    fn meets(&self, r: usize, d: usize) -> bool {
        (0..self.classes).any(|c| self.home(c) == r && self.parts(c, d))
    }

    fn first_touching(&self, r: usize) -> Option<usize> {
        let mut first = self.classes;
        for d in 0..self.classes {
            if self.meets(r, d) {
                first = first.min(self.home(d));
            }
        }
        if first < self.classes {
            Some(first)
        } else {
            None
        }
    }

    fn join(&mut self, r: usize, s: usize) {
        for home in self.homes.iter_mut() {
            if *home == r.max(s) {
                *home = r.min(s);
            }
        }
    }

    pub(crate) fn close(&mut self, k: usize) {
        for _round in 0..MOST {
            if let Some(r) = self.first_open(k)
                && let Some(s) = self.first_touching(r)
            {
                self.join(r, s);
            }
        }
    }

    pub(crate) fn size(&self, r: usize) -> usize {
        (0..self.classes).filter(|c| self.home(*c) == r).count()
    }

    pub(crate) fn first_large(&self, k: usize) -> Option<usize> {
        (0..self.classes).find(|r| k < self.size(*r))
    }

    pub(crate) fn grow(&mut self, k: usize) {
        for _round in 0..MOST {
            if k < self.classes && self.first_large(k).is_none() {
                if let Some(s) = (1..self.classes).find(|s| self.home(*s) == *s) {
                    self.join(0, s);
                }
                self.close(k);
            }
        }
    }
}
