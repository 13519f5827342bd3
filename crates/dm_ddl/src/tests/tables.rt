//! Statements, and what they say. Places of faults are counted in bytes from the statement's beginning.

/// Types and attributes of columns.
pub const COLUMNS: &str = "\
ALTER TABLE t ADD c TINYINT => t: add c Signed(1) NULL last
ALTER TABLE t ADD (a SMALLINT(5) UNSIGNED, b MEDIUMINT ZEROFILL, c INT(999) SIGNED, d INTEGER, e BIGINT UNSIGNED ZEROFILL) => t: add a Unsigned(2) NULL last; add b Unsigned(3) NULL last; add c Signed(4) NULL last; add d Signed(4) NULL last; add e Unsigned(8) NULL last
ALTER TABLE t ADD (a BOOL, b BOOLEAN, c DATE, d YEAR, e YEAR(4)) => t: add a Signed(1) NULL last; add b Signed(1) NULL last; add c Date NULL last; add d Year NULL last; add e Year NULL last
ALTER TABLE t ADD (a DECIMAL, b DEC(5), c NUMERIC(38,38), d decimal(5,5)) => t: add a Decimal(10, 0) NULL last; add b Decimal(5, 0) NULL last; add c Decimal(38, 38) NULL last; add d Decimal(5, 5) NULL last
ALTER TABLE t ADD c DECIMAL(39) => Unsupported 28
ALTER TABLE t ADD c DECIMAL(5,6) => Unsupported 30
ALTER TABLE t ADD c DECIMAL(0) => Unsupported 28
ALTER TABLE t ADD c DECIMAL(5,2) UNSIGNED => Unsupported 33
ALTER TABLE t ADD c NUMERIC ZEROFILL => Unsupported 28
ALTER TABLE t ADD (a CHAR, b CHAR(0), c CHAR(255), d BINARY, e BINARY(255)) => t: add a Char(1) NULL last; add b Char(0) NULL last; add c Char(255) NULL last; add d Binary(1) NULL last; add e Binary(255) NULL last
ALTER TABLE t ADD c CHAR(256) => Unsupported 25
ALTER TABLE t ADD c BINARY(256) => Unsupported 27
ALTER TABLE t ADD (a VARCHAR(0), b VARCHAR(65535), c VARBINARY(65535)) => t: add a Varchar(0) NULL last; add b Varchar(65535) NULL last; add c Varbinary(65535) NULL last
ALTER TABLE t ADD c VARCHAR(65536) => Unsupported 28
ALTER TABLE t ADD c VARBINARY(65536) => Unsupported 30
ALTER TABLE t ADD c VARCHAR NOT NULL => Syntax 28
ALTER TABLE t ADD (a TINYTEXT, b TEXT, c MEDIUMTEXT, d LONGTEXT, e TINYBLOB, f BLOB, g MEDIUMBLOB, h LONGBLOB) => t: add a Text(1) NULL last; add b Text(2) NULL last; add c Text(3) NULL last; add d Text(4) NULL last; add e Blob(1) NULL last; add f Blob(2) NULL last; add g Blob(3) NULL last; add h Blob(4) NULL last
ALTER TABLE t ADD c TINYTEXT(5) => Unsupported 28
ALTER TABLE t ADD c BLOB (9) => Unsupported 25
ALTER TABLE t ADD (a DATETIME, b DATETIME(0), c DATETIME(6), d TIMESTAMP(3), e timestamp) => t: add a Datetime(0) NULL last; add b Datetime(0) NULL last; add c Datetime(6) NULL last; add d Timestamp(3) NULL last; add e Timestamp(0) NULL last
ALTER TABLE t ADD c DATETIME(7) => Unsupported 29
ALTER TABLE t ADD c TIMESTAMP(18446744073709551617) => Unsupported 30
ALTER TABLE t ADD c TIMESTAMP(0.5) => Syntax 30
ALTER TABLE t ADD c YEAR(2) => Unsupported 25
ALTER TABLE t ADD c FLOAT => Unsupported 20
ALTER TABLE t ADD c enum('a','b') => Unsupported 20
ALTER TABLE t ADD c `int` => Syntax 20
ALTER TABLE t ADD c INT(-1) => Syntax 24
ALTER TABLE t ADD c CHAR(5 => Syntax 26
ALTER TABLE t ADD c CHAR(256 => Unsupported 25
ALTER TABLE t ADD c VARCHAR(0000000000000000000000009) => t: add c Varchar(9) NULL last
ALTER TABLE t ADD c INT(5,2) => Syntax 25
ALTER TABLE t ADD c BOOL(1) => Syntax 24
ALTER TABLE t ADD c DECIMAL(5,2) SIGNED => Syntax 33
ALTER TABLE t ADD c CHARACTER VARYING(5) => Unsupported 20
ALTER TABLE t ADD c NOT NULL => Unsupported 20
ALTER TABLE t ADD c  => Syntax 20
ALTER TABLE t ADD (a DECIMAL(5,5), b DECIMAL(3,4)) => Unsupported 47
ALTER TABLE ä ADD c FLOAT => Unsupported 21
ALTER TABLE t ADD c INT NOT NULL => t: add c Signed(4) NOT NULL last
ALTER TABLE t ADD c INT NULL DEFAULT NULL => t: add c Signed(4) NULL last
ALTER TABLE t ADD c INT NULL NOT NULL NULL => t: add c Signed(4) NOT NULL last
ALTER TABLE t ADD c INT NOT DEFAULT => Syntax 28
ALTER TABLE t ADD c INT DEFAULT 5 => t: add c Signed(4) NULL DEFAULT 5 last
ALTER TABLE t ADD c INT DEFAULT - 5 NOT NULL => t: add c Signed(4) NOT NULL DEFAULT -5 last
ALTER TABLE t ADD c INT DEFAULT '-7' => t: add c Signed(4) NULL DEFAULT -7 last
ALTER TABLE t ADD c BOOL NOT NULL DEFAULT TRUE => t: add c Signed(1) NOT NULL DEFAULT 1 last
ALTER TABLE t ADD c INT DEFAULT 1 DEFAULT 2 => t: add c Signed(4) NULL DEFAULT 2 last
ALTER TABLE t ADD c INT DEFAULT 1 COMMENT '' DEFAULT NULL => t: add c Signed(4) NULL last
ALTER TABLE t ADD c DECIMAL(5,2) DEFAULT -1.5 => t: add c Decimal(5, 2) NULL DEFAULT -150e-2 last
ALTER TABLE t ADD c VARCHAR(9) DEFAULT 'it''s' => t: add c Varchar(9) NULL DEFAULT <it's> last
ALTER TABLE t ADD c CHAR(9) DEFAULT _utf8mb4 'x ' => t: add c Char(9) NULL DEFAULT <x> last
ALTER TABLE t ADD c VARBINARY(9) DEFAULT X'4142' => t: add c Varbinary(9) NULL DEFAULT <AB> last
ALTER TABLE t ADD c TEXT DEFAULT 0x4142 => t: add c Text(2) NULL DEFAULT <AB> last
ALTER TABLE t ADD c YEAR DEFAULT 2024 => t: add c Year NULL DEFAULT 2024 last
ALTER TABLE t ADD c DATE DEFAULT '2024-02-29' => t: add c Date NULL DEFAULT 2024-2-29 last
ALTER TABLE t ADD c DATETIME(3) DEFAULT '2024-02-29 01:02:03.5' => t: add c Datetime(3) NULL DEFAULT 2024-2-29 1:2:3 500000 last
ALTER TABLE t ADD c TIMESTAMP DEFAULT '2024-01-01 00:00:00' => t: add c Timestamp(0) NULL DEFAULT 1704067200 0 last
ALTER TABLE t ADD c TIMESTAMP NOT NULL DEFAULT '0000-00-00 00:00:00' => t: add c Timestamp(0) NOT NULL DEFAULT 0 0 last
ALTER TABLE t ADD c DATE NOT NULL DEFAULT '0000-00-00' => t: add c Date NOT NULL DEFAULT 0-0-0 last
ALTER TABLE t ADD c VARCHAR(9) DEFAULT 'it\\'s 5\\%' => t: add c Varchar(9) NULL DEFAULT <it's 5\\%> last
ALTER TABLE Tä ADD ÄB VARCHAR(1) DEFAULT 'ä' => Tä: add Äb Varchar(1) NULL DEFAULT <ä> last
ALTER TABLE t ADD (a DATETIME DEFAULT CURRENT_TIMESTAMP, b DATETIME(6) DEFAULT now(6) ON UPDATE NOW(), c TIMESTAMP DEFAULT LOCALTIME(), d INT DEFAULT LOCALTIMESTAMP, e DATETIME ON UPDATE CURRENT_TIMESTAMP(6)) => t: add a Datetime(0) NULL DEFAULT now last; add b Datetime(6) NULL DEFAULT now last; add c Timestamp(0) NULL DEFAULT now last; add d Signed(4) NULL DEFAULT now last; add e Datetime(0) NULL last
ALTER TABLE t ADD c DATETIME DEFAULT NOW(7) => Unsupported 41
ALTER TABLE t ADD c DATETIME ON UPDATE NOW(7) => Unsupported 43
ALTER TABLE t ADD c DATETIME ON UPDATE 5 => Syntax 39
ALTER TABLE t ADD c DATETIME DEFAULT (NOW()) => Unsupported 37
ALTER TABLE t ADD c INT DEFAULT +1 => Syntax 32
ALTER TABLE t ADD c INT DEFAULT -'1' => Syntax 33
ALTER TABLE t ADD c INT DEFAULT b'1' => Syntax 32
ALTER TABLE t ADD c DATE DEFAULT DATE '2024-01-01' => Syntax 33
ALTER TABLE t ADD c TEXT DEFAULT _utf8 x'41' => Syntax 39
ALTER TABLE t ADD c TEXT DEFAULT _latin1 'x' => Syntax 33
ALTER TABLE t ADD c TEXT DEFAULT 0x => Syntax 34
ALTER TABLE t ADD c INT DEFAULT -0x41 => Syntax 33
ALTER TABLE t ADD c INT AUTO_INCREMENT => t: refused NoFill
ALTER TABLE t ADD c INT AUTO_INCREMENT PRIMARY KEY => t: refused PrimaryChange
ALTER TABLE t ADD c INT KEY => t: refused PrimaryChange
ALTER TABLE t ADD c INT UNIQUE => t: add c Signed(4) NULL last; nameless unique  (c)
ALTER TABLE t ADD c INT UNIQUE UNIQUE => t: add c Signed(4) NULL last; nameless unique  (c)
ALTER TABLE t ADD c INT UNIQUE KEY NOT NULL => t: add c Signed(4) NOT NULL last; nameless unique  (c)
ALTER TABLE t ADD c INT UNIQUE NOT NULL KEY => t: refused PrimaryChange
ALTER TABLE t ADD c VARCHAR(9) COMMENT 'a, b' COLLATE utf8mb4_bin CHARACTER SET UTF8 CHARSET ascii COLUMN_FORMAT DYNAMIC STORAGE DISK VISIBLE INVISIBLE => t: add c Varchar(9) NULL last
ALTER TABLE t ADD c TEXT CHARACTER SET latin1 => Unsupported 39
ALTER TABLE t ADD c TEXT CHARSET 'utf8' => Syntax 33
ALTER TABLE t ADD c TEXT CHARACTER utf8 => Syntax 35
ALTER TABLE t ADD c TEXT COLLATE 'utf8_bin' => Syntax 33
ALTER TABLE t ADD c TEXT COMMENT 5 => Syntax 33
ALTER TABLE t ADD c INT GENERATED ALWAYS AS (1) => Unsupported 24
ALTER TABLE t ADD c INT AS (1) => Unsupported 24
ALTER TABLE t ADD c INT REFERENCES u (id) => Unsupported 24
ALTER TABLE t ADD c INT CHECK (c > 0) => Syntax 24
ALTER TABLE t ADD c LONGTEXT CHARACTER SET utf8mb4 CHECK (json_valid(c)) => Syntax 51
ALTER TABLE t ADD c INT AUTOINCREMENT => Syntax 24
ALTER TABLE t ADD c TINYINT DEFAULT 128 => Made DefaultUnfit
ALTER TABLE t ADD c CHAR(1) DEFAULT 'ab' => Made DefaultUnfit
ALTER TABLE t ADD c INT NOT NULL DEFAULT NULL => Made DefaultUnfit
ALTER TABLE t ADD c INT DEFAULT 1.5 => Made DefaultUnfit
ALTER TABLE t ADD c INT DEFAULT 0x05 => Made DefaultUnfit
ALTER TABLE t ADD c YEAR DEFAULT 99 => Made DefaultUnfit
ALTER TABLE t ADD c VARCHAR(9) DEFAULT 5 => Made DefaultUnfit
ALTER TABLE t ADD c DATETIME DEFAULT '2024-01-01' => Made DefaultUnfit
ALTER TABLE t ADD c TIMESTAMP DEFAULT '1970-01-01 00:00:00' => Made DefaultUnfit
";

/// Tables that are created: their names, keys, options and comments.
pub const TABLES: &str = "\
CREATE TABLE t0 (id INT NOT NULL PRIMARY KEY, v VARCHAR(20)) => create t0: id Signed(4) NOT NULL, v Varchar(20) NULL, primary (id)
create table if not exists Db.T (ID int, primary key (Id)) => create new Db.T: id Signed(4) NOT NULL, primary (id)
CREATE TABLE IF (id INT KEY) => create IF: id Signed(4) NOT NULL, primary (id)
CREATE TABLE If . exists (id INT KEY) => create If.exists: id Signed(4) NOT NULL, primary (id)
CREATE TABLE IF NOT EXISTS IF (id INT KEY) => create new IF: id Signed(4) NOT NULL, primary (id)
CREATE TABLE IF NOT t (id INT KEY) => Syntax 20
CREATE TABLE t NOT x => Syntax 15
CREATE TABLE `a``b`.`C.d` (`x``Y` INT KEY) => create a`b.C.d: x`y Signed(4) NOT NULL, primary (x`y)
CREATE TABLE `` (`` INT KEY) => create :  Signed(4) NOT NULL, primary ()
CREATE TABLE t (`primary` INT KEY, `Check` INT, date DATE, text TEXT, on INT) => create t: primary Signed(4) NOT NULL, check Signed(4) NULL, date Date NULL, text Text(2) NULL, on Signed(4) NULL, primary (primary)
CREATE TABLE t (id INT KEY, CHECK INT) => create t: id Signed(4) NOT NULL, primary (id)
CREATE TABLE t (a INT, b INT, PRIMARY KEY USING BTREE (b DESC, A ASC) USING HASH) => create t: a Signed(4) NOT NULL, b Signed(4) NOT NULL, primary (b,a)
CREATE TABLE t (id INT NULL AUTO_INCREMENT, PRIMARY KEY (id)) => create t: id Signed(4) NOT NULL, primary (id)
CREATE TABLE t (id INT NULL PRIMARY KEY) => Made NullablePrimary
CREATE TABLE t (id INT NULL KEY, UNIQUE (w)) => Made UnknownColumn
CREATE TABLE t (id TINYINT NULL DEFAULT 300 KEY) => Made NullablePrimary
CREATE TABLE t (id INT) => Made NoPrimary
CREATE TABLE t (id INT, ID INT) => Made Duplicate
CREATE TABLE t (id INT, UNIQUE (w)) => Made NoPrimary
CREATE TABLE t (id TINYINT DEFAULT 300) => Made NoPrimary
CREATE TABLE t (id TINYINT DEFAULT 300 KEY) => Made DefaultUnfit
CREATE TABLE t (id INT KEY DEFAULT NULL) => Made DefaultUnfit
CREATE TABLE t (id INT KEY, v INT, PRIMARY KEY (v)) => Made Duplicate
CREATE TABLE t (id INT KEY, v INT KEY) => Made Duplicate
CREATE TABLE t (id INT KEY PRIMARY KEY) => create t: id Signed(4) NOT NULL, primary (id)
CREATE TABLE t (id INT, PRIMARY KEY (id), PRIMARY KEY (id), UNIQUE (id), UNIQUE (id), UNIQUE (id), UNIQUE (id), UNIQUE (id), UNIQUE (id), UNIQUE (id), UNIQUE (id), UNIQUE (id), UNIQUE (id), UNIQUE (id), UNIQUE (id), UNIQUE (id), UNIQUE (id), UNIQUE (id), UNIQUE (id), UNIQUE (id)) => Made TooMany
CREATE TABLE t (id INT, PRIMARY KEY pk (id)) => Syntax 36
CREATE TABLE t (id INT KEY, ID INT) => Made Duplicate
CREATE TABLE t (id INT KEY, UNIQUE k (id, ID)) => Made Duplicate
CREATE TABLE t (id INT KEY, UNIQUE (id), UNIQUE Id (id)) => Made Duplicate
CREATE TABLE t (id INT KEY, UNIQUE (w)) => Made UnknownColumn
CREATE TABLE t (PRIMARY KEY (id)) => Made UnknownColumn
CREATE TABLE t (a INT KEY, b INT UNIQUE, UNIQUE (B, a), UNIQUE KEY (b), UNIQUE INDEX K (a)) => create t: a Signed(4) NOT NULL, b Signed(4) NULL, primary (a), unique b (b), unique b_2 (b,a), unique b_3 (b), unique k (a)
CREATE TABLE t (a INT UNIQUE PRIMARY KEY, UNIQUE KEY USING HASH (a), UNIQUE a_3 USING BTREE (a), UNIQUE (a)) => create t: a Signed(4) NOT NULL, primary (a), unique a (a), unique a_2 (a), unique a_3 (a), unique a_4 (a)
CREATE TABLE t (id INT KEY, `primary` INT UNIQUE KEY) => create t: id Signed(4) NOT NULL, primary Signed(4) NULL, primary (id), unique primary_2 (primary)
CREATE TABLE t (id INT, CONSTRAINT Pk PRIMARY KEY (id), CONSTRAINT U1 UNIQUE (id), CONSTRAINT u UNIQUE KEY u2 (id), CONSTRAINT UNIQUE (id)) => create t: id Signed(4) NOT NULL, primary (id), unique u1 (id), unique u2 (id), unique id (id)
CREATE TABLE t (id INT, CONSTRAINT PRIMARY KEY (id), CONSTRAINT c CHECK (id > (1+2)), CHECK (id in (1,2)) NOT ENFORCED) => create t: id Signed(4) NOT NULL, primary (id)
CREATE TABLE t (id INT KEY, KEY k (id(3)), INDEX (id), FULLTEXT KEY f (id), SPATIAL INDEX s (id)) => create t: id Signed(4) NOT NULL, primary (id)
CREATE TABLE t (id INT KEY, KEY k (id, id), UNIQUE (id)) => create t: id Signed(4) NOT NULL, primary (id), unique id (id)
CREATE TABLE t (id INT KEY, CONSTRAINT c FOREIGN KEY (id) REFERENCES u (id)) => Unsupported 41
CREATE TABLE t (id INT KEY, FOREIGN KEY (id) REFERENCES u (id)) => Unsupported 28
CREATE TABLE t (id INT KEY, CONSTRAINT c INDEX (id)) => Syntax 41
CREATE TABLE t (v TEXT, PRIMARY KEY (v(3))) => Unsupported 38
CREATE TABLE t (v TEXT, UNIQUE k (v, (v+1))) => Unsupported 37
CREATE TABLE t (id INT KEY, UNIQUE KEY k (id) COMMENT 'x') => Syntax 46
CREATE TABLE t (id INT KEY) ENGINE=InnoDB DEFAULT CHARSET = utf8mb4 COLLATE=utf8mb4_bin, COMMENT 'a;b' CHARACTER SET ascii => create t: id Signed(4) NOT NULL, primary (id)
CREATE TABLE t (id INT KEY) ) x => create t: id Signed(4) NOT NULL, primary (id)
CREATE TABLE t (id INT KEY) CHARSET=latin1 => Unsupported 36
CREATE TABLE t (id INT KEY) CHARSET='utf8' => Syntax 36
CREATE TABLE t (id INT KEY) ENGINE=InnoDB PARTITION BY HASH (id) => Unsupported 42
CREATE TABLE t (id INT KEY) AS SELECT 1 => Unsupported 28
CREATE TABLE t (id INT KEY) ENGINE=InnoDB SELECT 1 => Unsupported 42
CREATE TABLE t LIKE u => Unsupported 15
CREATE TABLE IF NOT EXISTS d.t LIKE u => Unsupported 31
CREATE TABLE t (LIKE u) => Unsupported 16
CREATE TABLE t SELECT 1 => Unsupported 15
CREATE TABLE t ENGINE=InnoDB SELECT 1 => Syntax 15
CREATE TABLE t (id INT KEY, ) => Syntax 28
CREATE TABLE t (id INT KEY => Syntax 26
CREATE TABLE t  => Syntax 15
CREATE TABLE 2024_log (id INT KEY) => Syntax 13
CREATE TEMPORARY TABLE t (id INT KEY) => Other
CREATE VIEW v AS SELECT 1 => Other
INSERT INTO t VALUES (1) => Other
CREATE TABLE t (a FLOAT, b INT FOO) => Unsupported 18
CREATE TABLE t (a INT FOO, b FLOAT) => Syntax 22
CREATE TABLE t (a INT FOO, b CHAR(256)) => Syntax 22
CREATE TABLE t (a CHAR(256), b INT FOO) => Unsupported 23
CREATE TABLE t (a DECIMAL(39,40) KEY, b FLOAT) => Unsupported 26
CREATE TABLE t (a FLOAT, b INT FOO, c TEXT DEFAULT 'x) => Lex 51
CREATE TABLE t (a FLOAT COMMENT x'4') => Lex 32
CREATE TABLE t (id INT KEY /* ) => Lex 27
CREATE TABLE t (`id INT KEY) => Lex 16
/* a */ CREATE /*!40101 x */ TABLE t(id INT KEY)# ' => create t: id Signed(4) NOT NULL, primary (id)
CREATE TABLE t (id INT KEY -- ) => Syntax 31
CREATE TABLE t (id INT KEY --1) => Syntax 27
CREATE TABLE t (id INT KEY) -- => create t: id Signed(4) NOT NULL, primary (id)
SELECT 'x => Lex 7
CREATE TABLE t (id INT KEY) COMMENT='AS SELECT' => create t: id Signed(4) NOT NULL, primary (id)
CREATE TABLE a.b.c (id INT KEY) => Syntax 16
 => Other
";

/// Changes of tables.
pub const CHANGES: &str = "\
alter table D.T add column A int first, add B int after A, add (c int, d int) => D.T: add a Signed(4) NULL first; add b Signed(4) NULL after a; add c Signed(4) NULL last; add d Signed(4) NULL last
ALTER TABLE t ADD COLUMN (c INT FIRST) => Syntax 32
ALTER TABLE t ADD c INT FIRST NOT NULL => Syntax 30
ALTER TABLE t ADD (a INT KEY, b INT AUTO_INCREMENT) => t: refused PrimaryChange; refused NoFill
ALTER TABLE t ADD COLUMN IF NOT EXISTS c INT => Unsupported 28
ALTER TABLE t ADD c INT, d INT => Unsupported 25
ALTER TABLE t MODIFY v BIGINT NOT NULL => t: modify v Signed(8) NOT NULL keep
ALTER TABLE t MODIFY COLUMN v BIGINT UNSIGNED NULL FIRST => t: modify with NULL v Unsigned(8) NULL first
ALTER TABLE t MODIFY v INT NULL NOT NULL => t: modify with NULL v Signed(4) NOT NULL keep
ALTER TABLE t MODIFY v INT DEFAULT NULL => t: modify v Signed(4) NULL keep
ALTER TABLE t MODIFY v INT AFTER `W` => t: modify v Signed(4) NULL after w
ALTER TABLE t MODIFY id INT NULL AUTO_INCREMENT => t: modify id Signed(4) NOT NULL keep
ALTER TABLE t MODIFY v INT UNIQUE => t: modify v Signed(4) NULL keep; nameless unique  (v)
ALTER TABLE t MODIFY v INT PRIMARY KEY => t: refused PrimaryChange
ALTER TABLE t CHANGE v V SMALLINT AFTER id => t: modify v Signed(2) NULL after id
ALTER TABLE t CHANGE COLUMN v w INT => t: refused Renames
ALTER TABLE t CHANGE v w INT KEY => t: refused Renames
ALTER TABLE t DROP v, DROP COLUMN W, DROP INDEX K, DROP KEY l => t: drop v; drop w; drop key k; drop key l
ALTER TABLE t DROP a,  => Syntax 22
ALTER TABLE t DROP COLUMN IF EXISTS c => Syntax 29
ALTER TABLE t DROP PRIMARY KEY => t: refused PrimaryChange
ALTER TABLE t DROP INDEX `PRIMARY` => t: refused PrimaryChange
ALTER TABLE t DROP KEY primary => t: refused PrimaryChange
ALTER TABLE t DROP FOREIGN KEY f => Unsupported 19
ALTER TABLE t DROP PARTITION p => Unsupported 19
ALTER TABLE t DROP CHECK c => Syntax 19
ALTER TABLE t DROP CONSTRAINT c => Syntax 19
ALTER TABLE t ALTER v SET DEFAULT -5, ALTER COLUMN W SET DEFAULT 'it''s', ALTER x SET DEFAULT null, ALTER y DROP DEFAULT => t: default v <-5>; default w <'it''s'>; default x <null>; default y <>
ALTER TABLE t ALTER v SET DEFAULT (5) => Unsupported 34
ALTER TABLE t ALTER v SET DEFAULT NOW() => Syntax 34
ALTER TABLE t ALTER v SET VISIBLE => Syntax 26
ALTER TABLE t ALTER INDEX k VISIBLE => Syntax 20
ALTER TABLE t ADD UNIQUE K (a, B DESC), ADD UNIQUE (a), ADD CONSTRAINT c UNIQUE INDEX (a) => t: unique k (a,b); nameless unique  (a); unique c (a)
ALTER TABLE t ADD KEY i (v), ADD INDEX (v(5)), ADD FULLTEXT f (v) => t: no effect; no effect; no effect
ALTER TABLE t ADD KEY i (v)) => Syntax 27
ALTER TABLE t ADD PRIMARY KEY (a), ADD CONSTRAINT p PRIMARY KEY (a) => t: refused PrimaryChange; refused PrimaryChange
ALTER TABLE t ADD CHECK (a > 0) => Unsupported 18
ALTER TABLE t ADD CONSTRAINT c CHECK (a > 0) => Unsupported 31
ALTER TABLE t ADD CONSTRAINT FOREIGN KEY (a) REFERENCES u (a) => Unsupported 29
ALTER TABLE t ADD CONSTRAINT c KEY (a) => Syntax 31
ALTER TABLE t ADD PARTITION (PARTITION p VALUES IN (1)) => Unsupported 18
ALTER TABLE t ADD UNIQUE k (a(5)) => Unsupported 29
ALTER TABLE t RENAME COLUMN a TO b, RENAME TO u, RENAME d.u, RENAME KEY K TO l, RENAME INDEX k TO l => t: refused Renames; refused Renames; refused Renames; rename key k; rename key k
ALTER TABLE t RENAME AS u => Unsupported 21
ALTER TABLE t ENGINE=InnoDB, COMMENT 'x', AUTO_INCREMENT = 5, ALGORITHM=INPLACE, LOCK NONE, FORCE => t: no effect; no effect; no effect; no effect; no effect; no effect
ALTER TABLE t ENGINE=InnoDB COMMENT='x' => Syntax 28
ALTER TABLE t AUTO_INCREMENT=-5 => Syntax 29
ALTER TABLE t ROW_FORMAT=DYNAMIC => Unsupported 14
ALTER TABLE t CONVERT TO CHARACTER SET utf8 => Unsupported 14
ALTER TABLE t FORCE, DEFAULT CHARSET utf8 => Unsupported 21
ALTER TABLE t `add` c INT => Syntax 14
ALTER TABLE t  => Syntax 14
ALTER TABLE t DROP c; => Syntax 20
CREATE UNIQUE INDEX K USING HASH ON d.t (a, B DESC) USING BTREE => d.t: unique k (a,b)
CREATE INDEX i ON t (a(5), (b+1)) COMMENT 'x' LOCK=NONE => t: no effect
CREATE SPATIAL INDEX s ON t (a) => t: no effect
CREATE UNIQUE INDEX k ON t (a(5)) => Unsupported 29
CREATE UNIQUE INDEX k ON t (a) LOCK=NONE => Syntax 31
DROP INDEX K ON d.t => d.t: drop key k
DROP INDEX `PRIMARY` ON t => t: refused PrimaryChange
DROP INDEX k ON t LOCK=NONE => Syntax 18
ALTER TABLE t ADD c TINYINT DEFAULT 300, FOO => Unsupported 41
ALTER TABLE t RENAME u, ADD c TINYINT DEFAULT 300 => Made DefaultUnfit
ALTER TABLE t CHANGE a b TINYINT DEFAULT 300 => Made DefaultUnfit
ALTER TABLE t MODIFY id INT AUTO_INCREMENT DEFAULT NULL => Made DefaultUnfit
ALTER TABLE t DROP CHECK c, ADD d FLOAT => Syntax 19
ALTER TABLE t ADD c CHAR(256), FOO => Unsupported 25
ALTER TABLE IF EXISTS t ADD c INT => Unsupported 15
DROP INDEX IF EXISTS k ON t => Syntax 14
ALTER VIEW v AS SELECT 1 => Other
ALTER TABLE t /*!80000 ADD c INT */ => Syntax 35
CREATE INDEX IF NOT EXISTS i ON t (a) => Syntax 16
ALTER TABLE t MODIFY v => Syntax 22
ALTER TABLE t CHANGE v  => Syntax 23
ALTER TABLE t ADD CONSTRAINT UNIQUE (a), ADD UNIQUE INDEX USING BTREE (a) => t: nameless unique  (a); nameless unique  (a)
CREATE UNIQUE INDEX `a``B` ON t (`C``d`) => t: unique a`b (c`d)
";

/// Heads of statements.
pub const HEADS: &str = "\
CREATE TABLE t (id FLOAT, ; => create t
create table if not exists `A``b`.C LIKE u => create new A`b.C
CREATE TABLE IF (id INT) => create IF
CREATE TABLE IF EXISTS t (a INT) => create IF
CREATE TABLE t NOT x => create t
CREATE TABLE `IF` NOT x => create IF
ALTER TABLE a.b.c => alter a.b
ALTER TABLE db.2024_log ADD c INT => Syntax 14
DROP TABLE a EXISTS => drop a
CREATE TABLE t => create t
CREATE TABLE IF NOT t (id INT) => Syntax 20
CREATE TABLE 2024_log (id INT) => Syntax 13
CREATE TABLE d. => Syntax 15
CREATE TABLE t (v TEXT DEFAULT 'x) => Lex 31
CREATE TEMPORARY TABLE t (id INT) => no table
CREATE OR REPLACE TABLE t (id INT) => no table
ALTER TABLE D.t FOO ) BAR => alter D.t
ALTER TABLE IF EXISTS t ADD c INT => alter IF
ALTER VIEW v AS SELECT 1 => no table
CREATE INDEX i ON t (a) => create index t
CREATE INDEX i ON t => create index t
CREATE UNIQUE INDEX k USING BTREE ON d.t FOO => create index d.t
CREATE FULLTEXT INDEX f ON t (a) => create index t
CREATE SPATIAL INDEX s USING HASH ON t (a) => create index t
CREATE INDEX i (a) => Syntax 15
DROP INDEX k ON d.t ALGORITHM=COPY => drop index d.t
DROP INDEX k t => Syntax 13
DROP TABLE a, d.B CASCADE => drop a d.B
DROP TABLE IF EXISTS a, IF => drop a IF
DROP TABLE IF, b => drop IF b
DROP TABLE IF => drop IF
DROP TABLE if.a, IF.EXISTS => drop if.a IF.EXISTS
DROP TABLE IF NOT EXISTS a => drop IF
DROP TABLE IF EXISTS  => Syntax 21
DROP TABLE a, => Syntax 13
DROP TEMPORARY TABLE a => no table
DROP TABLES a => no table
DROP VIEW v => no table
TRUNCATE T => truncate T
TRUNCATE TABLE d.t => truncate d.t
TRUNCATE TABLE  => Syntax 15
RENAME TABLE a TO d.b, c TO a => rename a d.b c a
RENAME TABLE a b => Syntax 15
RENAME USER a TO b => no table
INSERT INTO t VALUES (1) => rows
replace t VALUES (1) => rows
UPDATE t SET a=1 => rows
DELETE FROM t => rows
LOAD DATA INFILE 'x' INTO TABLE t => rows
INSERT INTO t VALUES ('x) => Lex 22
WITH x AS (SELECT 1) DELETE FROM t => no table
`CREATE` TABLE t (id INT) => no table
BEGIN => no table
/* CREATE TABLE t */ => no table
 => no table
(SELECT 1) => no table
CREATE INDEX IF NOT EXISTS i ON t (a) => Syntax 16
ALTER TABLE t /* x */ FOO 'x => Lex 26
";

/// Texts of SHOW CREATE TABLE by MySQL 5.7, MySQL 8.0 and MariaDB, and one with comments, with semicolons between them.
pub const PRINTED: &str = "\
CREATE TABLE `Orders` (
  `Id` int(10) unsigned NOT NULL AUTO_INCREMENT,
  `Mail` varchar(100) CHARACTER SET utf8 COLLATE utf8_bin DEFAULT NULL COMMENT 'it''s, (a',
  `made` timestamp NOT NULL DEFAULT CURRENT_TIMESTAMP ON UPDATE CURRENT_TIMESTAMP,
  `price` decimal(10,2) NOT NULL DEFAULT '0.00',
  `seen` datetime(3) DEFAULT CURRENT_TIMESTAMP(3),
  `note` mediumtext,
  `gone` timestamp NULL DEFAULT NULL,
  PRIMARY KEY (`Id`),
  UNIQUE KEY `Mail` (`Mail`),
  KEY `made` (`made`) USING BTREE,
  FULLTEXT KEY `note` (`note`)
) ENGINE=InnoDB AUTO_INCREMENT=7 DEFAULT CHARSET=utf8mb4 COMMENT='a (b'
;
CREATE TABLE `t` (
  `id` bigint NOT NULL,
  `flag` tinyint(1) NOT NULL DEFAULT '1',
  `Name` varchar(20) CHARACTER SET utf8mb4 COLLATE utf8mb4_0900_ai_ci NOT NULL DEFAULT '',
  `hid` int DEFAULT NULL /*!80023 INVISIBLE */,
  `y` year DEFAULT NULL,
  `d` date DEFAULT '2020-01-01',
  `b` varbinary(16) DEFAULT NULL,
  PRIMARY KEY (`id`,`flag`),
  UNIQUE KEY `u` (`Name` DESC,`d`),
  KEY `k` (((`id` + 1))),
  KEY `p` (`Name`(10)) /*!80000 INVISIBLE */,
  CONSTRAINT `c` CHECK ((`flag` in (0,1)))
) ENGINE=InnoDB DEFAULT CHARSET=utf8mb4 COLLATE=utf8mb4_0900_ai_ci
/*!50100 PARTITION BY HASH (`id`)
PARTITIONS 4 */
;
CREATE TABLE `t` (
  `id` int(11) NOT NULL AUTO_INCREMENT COMMENT 'key',
  `n` int(11) NOT NULL DEFAULT 5,
  `v` varchar(9) DEFAULT 'a\\\\b',
  `at` datetime NOT NULL DEFAULT current_timestamp() ON UPDATE current_timestamp(),
  `s` text DEFAULT NULL,
  `f` decimal(5,1) NOT NULL DEFAULT -1.5,
  PRIMARY KEY (`id`),
  UNIQUE KEY `n` (`n`) USING HASH
) ENGINE=InnoDB DEFAULT CHARSET=utf8mb4 COLLATE=utf8mb4_general_ci
;
# written by hand
CREATE TABLE t ( -- the table (
  id INT, /* its ) , key */
  PRIMARY KEY (id) # )
)";

pub const PRINTED_SCHEMAS: &str = "\
create Orders: id Unsigned(4) NOT NULL, mail Varchar(100) NULL, made Timestamp(0) NOT NULL DEFAULT now, price Decimal(10, 2) NOT NULL DEFAULT 0e-2, seen Datetime(3) NULL DEFAULT now, note Text(3) NULL, gone Timestamp(0) NULL, primary (id), unique mail (mail)
create t: id Signed(8) NOT NULL, flag Signed(1) NOT NULL DEFAULT 1, name Varchar(20) NOT NULL DEFAULT <>, hid Signed(4) NULL, y Year NULL, d Date NULL DEFAULT 2020-1-1, b Varbinary(16) NULL, primary (id,flag), unique u (name,d)
create t: id Signed(4) NOT NULL, n Signed(4) NOT NULL DEFAULT 5, v Varchar(9) NULL DEFAULT <a\\b>, at Datetime(0) NOT NULL DEFAULT now, s Text(2) NULL, f Decimal(5, 1) NOT NULL DEFAULT -15e-1, primary (id), unique n (n)
create t: id Signed(4) NOT NULL, primary (id)
";
