//! The files of dumps, parted by `|`, and what is read of them: the places of rows by their files' numbers, or the fault.

/// Places are counted in bytes from the file's beginning.
pub const CASES: &str = "\
CREATE TABLE t (a INT NOT NULL, PRIMARY KEY (a));|INSERT INTO t VALUES (1),(2)|INSERT INTO t VALUES (3); => 1@21 1@25 2@21
CREATE TABLE t (a INT NOT NULL, PRIMARY KEY (a));|SET a|INSERT INTO t VALUES (7) => 2@21
SET a => file 0 at 5: NoCreate
SET a|INSERT INTO t VALUES ('x => file 0 at 5: NoCreate
CREATE TABLE t (a INT); => file 0 at 0: Create
CREATE TABLE t (a INT NOT NULL, PRIMARY KEY (a));CREATE TABLE t (a INT) => file 0 at 49: SecondCreate
CREATE TABLE t (a INT NOT NULL, PRIMARY KEY (a));INSERT INTO t VALUES (1) => file 0 at 49: Statement
CREATE TABLE t (a INT NOT NULL, PRIMARY KEY (a));INSERT INTO t VALUES ('x => file 0 at 71: Lex
CREATE TABLE t (a INT NOT NULL, PRIMARY KEY (a));UPDATE t => file 0 at 49: Statement
CREATE TABLE t (a INT COMMENT 'x => file 0 at 30: Lex
CREATE TABLE t (a INT NOT NULL, PRIMARY KEY (a));|INSERT INTO t VALUES (1);CREATE TABLE t (a INT NOT NULL, PRIMARY KEY (a)); => file 1 at 25: SecondCreate
CREATE TABLE t (a INT NOT NULL, PRIMARY KEY (a));|INSERT INTO t VALUES (1)|INSERT INTO t VALUES ('x => file 2 at 22: Lex
CREATE TABLE t (a INT NOT NULL, PRIMARY KEY (a));|INSERT INTO t VALUES (1);UPDATE t => file 1 at 25: Statement
CREATE TABLE t (a INT NOT NULL, PRIMARY KEY (a));|INSERT INTO t VALUES (1)|INSERT INTO u VALUES (1) => file 2 at 12: Table
CREATE TABLE t (a INT NOT NULL, PRIMARY KEY (a));|INSERT INTO t (b) VALUES (1) => file 1 at 14: Columns
CREATE TABLE t (a INT NOT NULL, PRIMARY KEY (a));|INSERT INTO t VALUES (1),(1,2) => file 1 at 25: Count
CREATE TABLE t (a INT NOT NULL, PRIMARY KEY (a));|INSERT INTO t VALUES (NULL);CREATE TABLE t (a INT NOT NULL, PRIMARY KEY (a));|UPDATE t => file 1 at 22: Unfit
CREATE TABLE t (a INT NOT NULL, PRIMARY KEY (a));|CREATE TABLE t (a INT NOT NULL, PRIMARY KEY (a));INSERT INTO t VALUES (NULL) => file 1 at 0: SecondCreate
";

/// As dumpling writes a table.
pub const DUMPLING: &str = "\
/*!40101 SET NAMES binary*/;
CREATE TABLE `t` (
  `id` bigint NOT NULL AUTO_INCREMENT,
  `v` varchar(20) COLLATE utf8mb4_bin DEFAULT NULL,
  PRIMARY KEY (`id`) /*T![clustered_index] CLUSTERED */,
  KEY `k` (`v`)
) ENGINE=InnoDB DEFAULT CHARSET=utf8mb4 COLLATE=utf8mb4_bin;
|/*!40101 SET NAMES binary*/;
INSERT INTO `t` VALUES
(1,'a'),
(2,NULL);
";

pub const DUMPLING_ROWS: &str = " 1@52 1@61";
