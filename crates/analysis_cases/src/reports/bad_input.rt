// Bad input and failing ends, and what the program makes of them.
use super::inputs::{Input, Tree};
use report::ReportStatus;

/// The ends over which the program runs. Those in turn make a run for each call.
#[derive(Clone, Copy)]
pub enum Ends {
    /// No call fails.
    Whole,
    /// Each read fails in turn, of reads of at most 16 bytes.
    EachReadFails,
    /// The read behind these fails.
    ReadBehindTheLastFails,
    /// Each write of the report fails in turn, of writes of at most seven bytes.
    EachWriteFails,
    /// The write behind these fails.
    WriteBehindTheLastFails,
    /// The second write of the report fails, of writes of at most ten bytes.
    WriteBehindTenBytesFails,
    /// The first write of a line on what stops the program fails.
    FirstErrorFails,
}

/// What the sink for the report holds in the end.
#[derive(Clone, Copy)]
pub enum Out {
    /// This text.
    Text(&'static str),
    /// The report of the function.
    Report,
    /// A front of it.
    FrontOfReport,
    /// Lines of which so many begin and end so.
    Lines(&'static [(&'static str, &'static str, usize)]),
}

/// An input and ends, and what the program makes of them.
#[derive(Clone, Copy)]
pub struct BadCase {
    pub name: &'static str,
    pub words: &'static [&'static str],
    pub input: Input,
    pub ends: Ends,
    pub status: ReportStatus,
    pub out: Out,
    pub errs: &'static str,
}

/// Lines on 300 functions, each of which opens a scope and has one parameter, and on the name in the innermost default, which
/// is free.
const FUNCTION_LINES: &[(&str, &str, usize)] = &[
    ("scope ", "", 301),
    ("symbol ", "", 301),
    ("scope 300 parent 299 node 1200 flags Function", "", 1),
    ("ref ", "", 1),
    ("ref 0 \"x\" node 1204 scope 300 flags Read symbol -", "", 1),
    ("free \"x\" 0", "", 1),
    (
        "stats nodes 1505 scopes 301 symbols 301 references 1",
        "",
        1,
    ),
];

/// Lines on 100 namespaces, of which none holds anything but types, so no export means one.
const RING_LINES: &[(&str, &str, usize)] = &[
    ("symbol ", "", 100),
    ("symbol ", " flags NamespaceModule", 100),
    ("ref ", "", 100),
    ("ref ", " symbol -", 100),
    ("free ", "", 100),
];

/// The same with a constant enum in one of them, which all of them reach.
const RING_LINES_WITH_ENUM: &[(&str, &str, usize)] = &[
    ("symbol ", "", 102),
    ("symbol ", " flags ValueModule", 100),
    ("symbol ", " flags ConstEnum", 1),
    ("symbol ", " flags EnumMember", 1),
    ("ref ", "", 100),
    ("ref ", " symbol -", 0),
    ("free ", "", 0),
];

pub const BAD_INPUT: &[BadCase] = &[
    BadCase {
        name: "a tree cut behind any of its bytes but the last",
        words: &[],
        input: Input::Cut(Tree::Assignment),
        ends: Ends::Whole,
        status: ReportStatus::Tree,
        out: Out::Text(""),
        errs: "tree: not JSON\n",
    },
    BadCase {
        name: "not JSON",
        words: &[],
        input: Input::Text(r#"{"format":1"#),
        ends: Ends::Whole,
        status: ReportStatus::Tree,
        out: Out::Text(""),
        errs: "tree: not JSON\n",
    },
    BadCase {
        name: "a fraction as end",
        words: &[],
        input: Input::Changed(Tree::Empty, "0,0,", "0,0.5,"),
        ends: Ends::Whole,
        status: ReportStatus::Tree,
        out: Out::Text(""),
        errs: "tree: shape at node 0\n",
    },
    BadCase {
        name: "an unknown kind",
        words: &[],
        input: Input::Changed(Tree::Empty, "Program", "Programme"),
        ends: Ends::Whole,
        status: ReportStatus::Tree,
        out: Out::Text(""),
        errs: "tree: shape at node 0\n",
    },
    BadCase {
        name: "a declarator without a name",
        words: &[],
        input: Input::Changed(
            Tree::Assignment,
            r#"[3,"id","BindingIdentifier",4,5,"a",[]],"#,
            "",
        ),
        ends: Ends::Whole,
        status: ReportStatus::Tree,
        out: Out::Text(""),
        errs: "tree: shape at node 2\n",
    },
    BadCase {
        name: "a depth that jumps",
        words: &[],
        input: Input::Changed(Tree::Assignment, r#"[3,"id""#, r#"[4,"id""#),
        ends: Ends::Whole,
        status: ReportStatus::Tree,
        out: Out::Text(""),
        errs: "tree: shape at node 3\n",
    },
    BadCase {
        name: "a mark that stands twice",
        words: &[],
        input: Input::Changed(
            Tree::Assignment,
            r#""1",["decimal"]"#,
            r#""1",["decimal","decimal"]"#,
        ),
        ends: Ends::Whole,
        status: ReportStatus::Tree,
        out: Out::Text(""),
        errs: "tree: shape at node 4\n",
    },
    BadCase {
        name: "texts in a list that is not there",
        words: &[],
        input: Input::Changed(Tree::Assignment, r#""format":1"#, r#""format":2"#),
        ends: Ends::Whole,
        status: ReportStatus::Tree,
        out: Out::Text(""),
        errs: "tree: shape\n",
    },
    BadCase {
        name: "a text past the list",
        words: &[],
        input: Input::Changed(Tree::Listed, "0,0,0,", "0,0,1,"),
        ends: Ends::Whole,
        status: ReportStatus::Tree,
        out: Out::Text(""),
        errs: "tree: shape at node 0\n",
    },
    BadCase {
        name: "a text in the place of its number",
        words: &[],
        input: Input::Changed(Tree::Listed, "0,0,0,", r#"0,0,"","#),
        ends: Ends::Whole,
        status: ReportStatus::Tree,
        out: Out::Text(""),
        errs: "tree: shape at node 0\n",
    },
    BadCase {
        name: "a fraction as the number of a text",
        words: &[],
        input: Input::Changed(Tree::Listed, "0,0,0,", "0,0,0.5,"),
        ends: Ends::Whole,
        status: ReportStatus::Tree,
        out: Out::Text(""),
        errs: "tree: shape at node 0\n",
    },
    BadCase {
        name: "a number in the place of a text",
        words: &[],
        input: Input::Changed(Tree::Empty, r#"0,0,"","#, "0,0,0,"),
        ends: Ends::Whole,
        status: ReportStatus::Tree,
        out: Out::Text(""),
        errs: "tree: shape at node 0\n",
    },
    BadCase {
        name: "a list of texts with a number",
        words: &[],
        input: Input::Changed(Tree::Listed, r#"[""]"#, r#"["",1]"#),
        ends: Ends::Whole,
        status: ReportStatus::Tree,
        out: Out::Text(""),
        errs: "tree: shape\n",
    },
    BadCase {
        name: "a text in the place of the list of texts",
        words: &[],
        input: Input::Changed(Tree::Listed, r#"[""]"#, r#""""#),
        ends: Ends::Whole,
        status: ReportStatus::Tree,
        out: Out::Text(""),
        errs: "tree: shape\n",
    },
    BadCase {
        name: "a list of texts that is not asked for",
        words: &[],
        input: Input::Changed(Tree::Listed, r#""format":2"#, r#""format":1"#),
        ends: Ends::Whole,
        status: ReportStatus::Tree,
        out: Out::Text(""),
        errs: "tree: shape\n",
    },
    BadCase {
        name: "a format that is not there",
        words: &[],
        input: Input::Changed(Tree::Listed, r#""format":2"#, r#""format":3"#),
        ends: Ends::Whole,
        status: ReportStatus::Tree,
        out: Out::Text(""),
        errs: "tree: shape\n",
    },
    BadCase {
        name: "a span that cuts a character",
        words: &[],
        input: Input::Text(
            r#"{"format":1,"source":"é","goal":"script","lang":"js","comments":[],"rows":[[0,"root","Program",0,1,"",[]]]}"#,
        ),
        ends: Ends::Whole,
        status: ReportStatus::Tree,
        out: Out::Text(""),
        errs: "tree: span at node 0\n",
    },
    BadCase {
        name: "comments that overlap",
        words: &[],
        input: Input::Text(
            r#"{"format":1,"source":"ab","goal":"script","lang":"js","comments":[[0,2,"block"],[1,2,"line"]],"rows":[[0,"root","Program",0,2,"",[]]]}"#,
        ),
        ends: Ends::Whole,
        status: ReportStatus::Tree,
        out: Out::Text(""),
        errs: "tree: span at comment 1\n",
    },
    BadCase {
        name: "a comment outside the source",
        words: &[],
        input: Input::Changed(
            Tree::Empty,
            r#""comments":[]"#,
            r#""comments":[[0,1,"line"]]"#,
        ),
        ends: Ends::Whole,
        status: ReportStatus::Tree,
        out: Out::Text(""),
        errs: "tree: span at comment 0\n",
    },
    BadCase {
        name: "blocks one too deep",
        words: &[],
        input: Input::Blocks(1_001),
        ends: Ends::Whole,
        status: ReportStatus::Tree,
        out: Out::Text(""),
        errs: "tree: too deep at node 1001\n",
    },
    BadCase {
        name: "100,000 blocks, each inside the one before",
        words: &[],
        input: Input::Blocks(100_000),
        ends: Ends::Whole,
        status: ReportStatus::Tree,
        out: Out::Text(""),
        errs: "tree: too deep at node 1001\n",
    },
    BadCase {
        name: "functions, each in the default of the parameter of the one before",
        words: &["--stats"],
        input: Input::Functions(300),
        ends: Ends::Whole,
        status: ReportStatus::Done,
        out: Out::Lines(FUNCTION_LINES),
        errs: "",
    },
    BadCase {
        name: "a ring of namespaces",
        words: &[],
        input: Input::Ring {
            length: 100,
            enum_in: None,
        },
        ends: Ends::Whole,
        status: ReportStatus::Done,
        out: Out::Lines(RING_LINES),
        errs: "",
    },
    BadCase {
        name: "a ring of namespaces, one of which has a constant enum",
        words: &[],
        input: Input::Ring {
            length: 100,
            enum_in: Some(50),
        },
        ends: Ends::Whole,
        status: ReportStatus::Done,
        out: Out::Lines(RING_LINES_WITH_ENUM),
        errs: "",
    },
    BadCase {
        name: "as many spaces as are read",
        words: &[],
        input: Input::Spaces(67_108_864),
        ends: Ends::Whole,
        status: ReportStatus::Tree,
        out: Out::Text(""),
        errs: "tree: not JSON\n",
    },
    BadCase {
        name: "one space more",
        words: &[],
        input: Input::Spaces(67_108_865),
        ends: Ends::Whole,
        status: ReportStatus::TooLong,
        out: Out::Text(""),
        errs: "input too long\n",
    },
    BadCase {
        name: "each read fails",
        words: &[],
        input: Input::Whole(Tree::Function),
        ends: Ends::EachReadFails,
        status: ReportStatus::Read,
        out: Out::Text(""),
        errs: "read failed\n",
    },
    BadCase {
        name: "no read behind the end",
        words: &[],
        input: Input::Whole(Tree::Function),
        ends: Ends::ReadBehindTheLastFails,
        status: ReportStatus::Done,
        out: Out::Report,
        errs: "",
    },
    BadCase {
        name: "each write fails",
        words: &[],
        input: Input::Whole(Tree::Function),
        ends: Ends::EachWriteFails,
        status: ReportStatus::Write,
        out: Out::FrontOfReport,
        errs: "write failed\n",
    },
    BadCase {
        name: "no write behind the report",
        words: &[],
        input: Input::Whole(Tree::Function),
        ends: Ends::WriteBehindTheLastFails,
        status: ReportStatus::Done,
        out: Out::Report,
        errs: "",
    },
    BadCase {
        name: "a write that fails behind ten bytes",
        words: &[],
        input: Input::Whole(Tree::Assignment),
        ends: Ends::WriteBehindTenBytesFails,
        status: ReportStatus::Write,
        out: Out::Text("scope 0 pa"),
        errs: "write failed\n",
    },
    BadCase {
        name: "the line on a refusal is lost",
        words: &[],
        input: Input::Text(r#"{"format":1"#),
        ends: Ends::FirstErrorFails,
        status: ReportStatus::Tree,
        out: Out::Text(""),
        errs: "",
    },
];
