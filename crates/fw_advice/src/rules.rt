//! Each rule in words, and how a text that breaks it is mended.
use fw_lines::Code;

/// A rule in words.
pub(crate) fn rule(code: Code) -> &'static str {
    match code {
        Code::F1 => "each line has one of the forms of a flow",
        Code::F2 => "each loop, each node and each edge has a name of its own",
        Code::F3 => "each name that is used is declared on some line",
        Code::F4 => "each node has as many edges as its kind takes",
        Code::F5 => "an edge leads to a node of the domain in which its sender sends",
        Code::F6 =>
            "no circle passes a node outside loops, and each in a loop passes a feedback of it",
        Code::F7 => "the policy is one that the kind may have",
        Code::F8 => "counts and numbers are in their range",
        Code::F9 => "there is an input and an output",
        Code::F10 => "each number is below 2^64",
        Code::F11 => "a flow has at most 1048576 bytes",
        Code::F12 => "loops lie within each other at most three deep",
        Code::I1 => "each line is `batch INPUT KEY:VALUE ..`",
        Code::I2 => "each batch is of an input of the flow",
        Code::I3 => "each number is below 2^64",
        Code::I4 => "each rec has a colon",
        Code::I5 => "inputs have at most 16777216 bytes, and 1048576 batches of an input",
        Code::S1 => "each line has one of the forms of a schedule",
        Code::S2 => "each name is declared in the flow, and of the sort that the step wants",
        Code::S3 => "a stamp has the coordinates of the node that takes it",
        Code::S4 => "a schedule has at most 16777216 bytes, and 4294967295 steps",
    }
}

/// How a text is mended that breaks a rule.
pub(crate) fn cure(code: Code) -> &'static str {
    match code {
        Code::F1 =>
            "write the line in one of the forms, as `node sums total policy lazy` or `edge a orders sums`; a comment is a line that begins with #",
        Code::F2 => "rename one of the two (a node and an edge may share a name)",
        Code::F3 => "declare it, on any line, or write the name as it is declared",
        Code::F4 => "add the edge that is missing, or put a `concat` before what takes one edge",
        Code::F5 => "put `enter`, `leave`, `sequence` or `regroup` between the two",
        Code::F6 =>
            "outside loops take an edge of the circle away, or make a loop of it by `enter`, `feedback` and `leave`; in a loop put a `feedback` of it into the circle",
        Code::F7 => "write `policy lazy` in its place",
        Code::F8 => "take a smaller flow, or a number of the range",
        Code::F9 => "declare what is missing, and the edges that join it",
        Code::F10 | Code::I3 => "take a smaller number",
        Code::F11 => "name the flow first, then the inputs, then the schedule",
        Code::F12 => "declare fewer loops within each other",
        Code::I1 | Code::I4 =>
            "write the line as `batch orders 1:20 2:150`, each rec a key, a colon and a value",
        Code::I2 => "write the name of a node of the kind `input`",
        Code::I5 => "make two runs of it",
        Code::S1 => "write one step on a line, as `inject orders`, `deliver a` or `auto 1000000`",
        Code::S2 =>
            "`inject` names an input, `deliver` an edge, `ack` an output, each other step a node",
        Code::S3 => "write as many coordinates as the domain has, or leave out `at` and the stamp",
        Code::S4 => "ask for fewer steps",
    }
}
