//! Cases with words, and over ends that fail.

/// A set of the folder, with words, and the numbers of the calls on the source, on the sink
/// and on the sink for errors that fail, or 0 for none.
pub struct Case {
    pub name: &'static str,
    pub set: &'static str,
    pub words: &'static [&'static str],
    pub read: u64,
    pub write: u64,
    pub tell: u64,
}

pub const CASES: &[Case] = &[
    Case {
        name: "no end fails",
        set: "a-renamed-export-of-a-third-module",
        words: &[],
        read: 0,
        write: 0,
        tell: 0,
    },
    Case {
        name: "a word",
        set: "a-renamed-export-of-a-third-module",
        words: &["--check"],
        read: 1,
        write: 1,
        tell: 0,
    },
    Case {
        name: "a word that can't be told",
        set: "a-renamed-export-of-a-third-module",
        words: &["b"],
        read: 1,
        write: 1,
        tell: 2,
    },
    Case {
        name: "the first read fails",
        set: "a-renamed-export-of-a-third-module",
        words: &[],
        read: 1,
        write: 0,
        tell: 0,
    },
    Case {
        name: "the read behind the input fails",
        set: "a-renamed-export-of-a-third-module",
        words: &[],
        read: 2,
        write: 0,
        tell: 0,
    },
    Case {
        name: "the first write fails",
        set: "a-renamed-export-of-a-third-module",
        words: &[],
        read: 0,
        write: 1,
        tell: 0,
    },
    Case {
        name: "a write in the first line fails",
        set: "a-ring-of-two-modules",
        words: &[],
        read: 0,
        write: 2,
        tell: 0,
    },
    Case {
        name: "a write behind the first line fails, and the telling too",
        set: "an-import-that-is-exported-again",
        words: &[],
        read: 0,
        write: 4,
        tell: 1,
    },
    Case {
        name: "a refusal that is told in part",
        set: "a-name-twice",
        words: &[],
        read: 0,
        write: 1,
        tell: 2,
    },
];
