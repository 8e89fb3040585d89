// A program with its report, and words for which nothing is read.
use report::ReportStatus;

/// The tree of `let a; function f(b) { return b; } f(a);`.
pub const FUNCTION: &str =
    r#"{"comments":[],"format":1,"goal":"script","lang":"js","rows":[[0,"root","Program",0,40,"",[]],[1,"body","VariableDeclaration",0,6,"let",[]],[2,"declarators","VariableDeclarator",4,5,"",[]],[3,"id","BindingIdentifier",4,5,"a",[]],[1,"body","Function",7,34,"declaration",[]],[2,"id","BindingIdentifier",16,17,"f",[]],[2,"params","FormalParameters",18,19,"formal",[]],[3,"items","FormalParameter",18,19,"",[]],[4,"pattern","BindingIdentifier",18,19,"b",[]],[2,"body","FunctionBody",30,31,"",[]],[3,"body","ReturnStatement",30,31,"",[]],[4,"argument","IdentifierReference",30,31,"b",[]],[1,"body","ExpressionStatement",35,38,"",[]],[2,"expression","CallExpression",35,38,"",[]],[3,"callee","IdentifierReference",35,36,"f",[]],[3,"arguments","IdentifierReference",37,38,"a",[]]],"source":"let a; function f(b) { return b; } f(a);"}"#;

/// Its report.
pub const FUNCTION_REPORT: &str =
    "scope 0 parent - node 0 flags Top\nbind 0 \"a\" 0\nbind 0 \"f\" 1\nscope 1 parent 0 node 4 flags Function\nbind 1 \"b\" 2\nsymbol 0 \"a\" scope 0 node 2 span 4-5 flags BlockScopedVariable\nuses 0 2\nsymbol 1 \"f\" scope 0 node 4 span 16-17 flags Function\nuses 1 1\nsymbol 2 \"b\" scope 1 node 7 span 18-19 flags FunctionScopedVariable\nuses 2 0\nref 0 \"b\" node 11 scope 1 flags Read symbol 2\nref 1 \"f\" node 14 scope 0 flags Read symbol 1\nref 2 \"a\" node 15 scope 0 flags Read symbol 0\n";

/// Words for which nothing is read, and what the program makes of them.
#[derive(Clone, Copy)]
pub struct Unread {
    pub words: &'static [&'static str],
    pub status: ReportStatus,
    pub out: &'static str,
}

/// The line on words that are refused.
pub const USAGE: &str = "usage: report [--check] [--nodes] [--classes] [--stats] [--make N]\n";

pub const UNREAD: &[Unread] = &[
    Unread {
        words: &["--what"],
        status: ReportStatus::Usage,
        out: "",
    },
    Unread {
        words: &["--check", "--what"],
        status: ReportStatus::Usage,
        out: "",
    },
    Unread {
        words: &["--stats", "--what"],
        status: ReportStatus::Usage,
        out: "",
    },
    Unread {
        words: &["--make"],
        status: ReportStatus::Usage,
        out: "",
    },
    Unread {
        words: &["--make", "0"],
        status: ReportStatus::Usage,
        out: "",
    },
    Unread {
        words: &["--make", "07"],
        status: ReportStatus::Usage,
        out: "",
    },
    Unread {
        words: &["--make", "100001"],
        status: ReportStatus::Usage,
        out: "",
    },
    Unread {
        words: &["--make", "x"],
        status: ReportStatus::Usage,
        out: "",
    },
    Unread {
        words: &["--make", "3"],
        status: ReportStatus::Done,
        out: "made nodes 43 scopes 4 symbols 9 references 9 free 3\n",
    },
    Unread {
        words: &["--make", "5"],
        status: ReportStatus::Done,
        out: "made nodes 71 scopes 6 symbols 15 references 15 free 5\n",
    },
    Unread {
        words: &["--make", "5", "--make", "3"],
        status: ReportStatus::Done,
        out: "made nodes 43 scopes 4 symbols 9 references 9 free 3\n",
    },
    Unread {
        words: &["--nodes", "--make", "3", "--classes", "--stats"],
        status: ReportStatus::Done,
        out: "made nodes 43 scopes 4 symbols 9 references 9 free 3\n",
    },
    Unread {
        words: &["--check", "--make", "3"],
        status: ReportStatus::Done,
        out: "made nodes 43 scopes 4 symbols 9 references 9 free 3\n",
    },
    Unread {
        words: &["--make", "10000", "--check"],
        status: ReportStatus::Done,
        out: "made nodes 140001 scopes 10001 symbols 30000 references 30000 free 10000\n",
    },
    Unread {
        words: &["--make", "10000"],
        status: ReportStatus::Done,
        out: "made nodes 140001 scopes 10001 symbols 30000 references 30000 free 10000\n",
    },
];
