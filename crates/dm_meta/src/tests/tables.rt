//! Texts, and what they say; behind it, the text that is written of that.

pub const CHECKPOINTS: &str =
    r#"{"position":0,"version":1,"window":4} => 0 4 {"position":0,"version":1,"window":4}
{"position":3,"version":1,"window":1000} => 3 1000 {"position":3,"version":1,"window":1000}
 { "window" : 100000 , "version" : 1 , "position" : 18446744073709551615 }  => 18446744073709551615 100000 {"position":18446744073709551615,"version":1,"window":100000}
{"position":3,"\u0076ersion":1,"window":1} => 3 1 {"position":3,"version":1,"window":1}
{"position":3,"position":3,"version":1,"window":4} => no
{"position":3,"position":3,"version":1} => no
{"position":3,"version":1,"window":4,"lane":0} => no
{"position":3,"version":1,"lane":4} => no
{"position":3,"version":1} => no
{"position":3,"version":2,"window":4} => no
{"position":3,"version":1,"window":0} => no
{"position":3,"version":1,"window":100001} => no
{"position":1.0,"version":1,"window":4} => no
{"position":1e3,"version":1,"window":4} => no
{"position":-0,"version":1,"window":4} => no
{"position":"3","version":1,"window":4} => no
{"position":18446744073709551616,"version":1,"window":4} => no
{"position":03,"version":1,"window":4} => no
{"position":3,"version":1,"window":4}1 => no
{"position":3,"version":1,"window":4 => no
["position",3,"version",1,"window",4] => no
"position" => no
 => no
"#;

pub const LOCKS: &str = r#"{"order":[],"version":1} => {"order":[],"version":1}
{"order":[["a `s`.`t0`",3],["a `s`.`t0`",1]],"version":1} => a `s`.`t0` 3 a `s`.`t0` 1 {"order":[["a `s`.`t0`",3],["a `s`.`t0`",1]],"version":1}
{"version":1, "order":[ ["say \u0022a\\b\"", 7] ]} => say "a\b" 7 {"order":[["say \"a\\b\"",7]],"version":1}
{"order":[["a",3,0]],"version":1} => no
{"order":[["a"]],"version":1} => no
{"order":[[]],"version":1} => no
{"order":[[3,3]],"version":1} => no
{"order":[["a","3"]],"version":1} => no
{"order":[["a",3],["a",1.0]],"version":1} => no
{"order":["a",3],"version":1} => no
{"order":{"a":3},"version":1} => no
{"order":[],"order":[],"version":1} => no
{"order":[],"version":1,"lane":0} => no
{"order":[],"lane":1} => no
{"order":[],"order":[]} => no
{"order":[]} => no
{"order":[],"version":2} => no
{"order":[],"version":1}} => no
 => no
"#;

pub const NAMES: &str = "lock `d``b`.`t`\nshard a `s`.`t0`\n";
