//! Dumps, and what they say. Places of faults are counted in bytes from the dump's beginning.

/// Dumps of a line each, and their rows or faults.
pub const DUMPS: &str = "\
CREATE TABLE `t0` (`id` INT NOT NULL, `v` VARCHAR(20), PRIMARY KEY (`id`)); INSERT INTO `t0` VALUES (1,'x'),(2,NULL); => t0 (1,<x>)(2,NULL)
CREATE TABLE t (a INT NOT NULL, b VARCHAR(5), PRIMARY KEY (a)); INSERT INTO t (b,a) VALUES ('x',1),('y',2); INSERT INTO t VALUES (3,'z'); => t (1,<x>)(2,<y>)(3,<z>)
CREATE TABLE t (a INT NOT NULL, b VARCHAR(5), PRIMARY KEY (a)); INSERT INTO t (A,`B`) VALUES (1,'x'); insert into t (b,a) values (null,-2) => t (1,<x>)(-2,NULL)
CREATE TABLE t (a INT NOT NULL, b VARCHAR(5), PRIMARY KEY (a)); INSERT INTO `db`.`t` VALUES (1,'x'); INSERT INTO db . t VALUES (2,\"y\") => t (1,<x>)(2,<y>)
CREATE TABLE h (a INT NOT NULL, b VARBINARY(9), PRIMARY KEY (a)); INSERT INTO h VALUES (1,0x4142),(TRUE,_binary 'cd'),(-2,x'4546'); => h (1,<AB>)(1,<cd>)(-2,<EF>)
CREATE TABLE t (a INT NOT NULL, b VARCHAR(5), PRIMARY KEY (a)); INSERT INTO t VALUES (1,'a;b'),(2,'it''s'); => t (1,<a;b>)(2,<it's>)
SET a 'b';;; CREATE TABLE t (a INT NOT NULL, b VARCHAR(5), PRIMARY KEY (a)); UNLOCK TABLES; => t 
 => fault 0 NoCreate
SET NAMES utf8; => fault 15 NoCreate
CREATE TABLE t (a INT NOT NULL, b VARCHAR(5), PRIMARY KEY (a)); INSERT INTO t VALUES (1,'x); => fault 88 Lex
CREATE TABLE t (a INT NOT NULL, b VARCHAR(5), PRIMARY KEY (a)); INSERT INTO t VALUES (1,x'4'); => fault 88 Lex
CREATE TABLE t (a INT NOT NULL, b VARCHAR(5), PRIMARY KEY (a)); UPDATE t SET a=1; => fault 64 Statement
CREATE TABLE t (a INT NOT NULL, b VARCHAR(5), PRIMARY KEY (a)); CREATE DATABASE d; => fault 64 Statement
CREATE TABLE t (a INT NOT NULL, b VARCHAR(5), PRIMARY KEY (a)); INSERT INTO a.b.t VALUES (1,'x'); => fault 64 Statement
CREATE TABLE t (a INT NOT NULL, b VARCHAR(5), PRIMARY KEY (a)); INSERT INTO t VALUES (1,'x'),; => fault 64 Statement
CREATE TABLE t (a INT NOT NULL, b VARCHAR(5), PRIMARY KEY (a)); CREATE TABLE u (c INT); => fault 64 SecondCreate
CREATE TABLE t (a INT NOT NULL, b VARCHAR(5), PRIMARY KEY (a)); INSERT INTO db.u VALUES (1,'x'); => fault 79 Table
CREATE TABLE t (a INT NOT NULL, b VARCHAR(5), PRIMARY KEY (a)); INSERT INTO T VALUES (1,'x'); => fault 76 Table
CREATE TABLE t (a INT NOT NULL, b VARCHAR(5), PRIMARY KEY (a)); INSERT INTO t (a,a) VALUES (1,2); => fault 78 Columns
CREATE TABLE t (a INT NOT NULL, b VARCHAR(5), PRIMARY KEY (a)); INSERT INTO t () VALUES (); => fault 78 Columns
CREATE TABLE t (a INT NOT NULL, b VARCHAR(5), PRIMARY KEY (a)); INSERT INTO t (a) VALUES (1); => fault 78 Columns
CREATE TABLE t (a INT NOT NULL, b VARCHAR(5), PRIMARY KEY (a)); INSERT INTO t VALUES (1,'x'),(2); => fault 93 Count
CREATE TABLE t (a INT NOT NULL, b VARCHAR(5), PRIMARY KEY (a)); INSERT INTO t VALUES (); => fault 85 Count
CREATE TABLE t (a INT NOT NULL, b VARCHAR(5), PRIMARY KEY (a)); INSERT INTO t VALUES (NULL,'x',3); => fault 85 Count
CREATE TABLE t (a INT NOT NULL, b VARCHAR(5), PRIMARY KEY (a)); INSERT INTO t VALUES (NULL,'x'); => fault 86 Unfit
CREATE TABLE t (a INT NOT NULL, b VARCHAR(5), PRIMARY KEY (a)); INSERT INTO t VALUES (-99999999999,'x'); => fault 86 Unfit
CREATE TABLE t (a INT NOT NULL, b VARCHAR(5), PRIMARY KEY (a)); INSERT INTO t (b,a) VALUES (_utf8mb4 'abcdef',1); => fault 92 Unfit
CREATE TABLE t (a INT); => fault 0 Create
CREATE TABLE t (a INT COMMENT 'x => fault 30 Lex
INSERT INTO t VALUES (1,'x'); CREATE TABLE t (a INT NOT NULL, b VARCHAR(5), PRIMARY KEY (a));  => fault 0 Statement
INSERT INTO t VALUES (1,'x'); => fault 0 Statement
INSERT INTO t VALUES (1,'x => fault 24 Lex
INSERT INTO t VALUES (1); UPDATE t 'x => fault 0 Statement
INSERT INTO t VALUES (1); CREATE TABLE t (a INT NOT NULL, PRIMARY KEY (a)); => fault 0 Statement
CREATE TABLE t (a INT NOT NULL, b VARCHAR(5), PRIMARY KEY (a)); INSERT INTO t VALUES (NULL,'x') FROM; => fault 64 Statement
CREATE TABLE t (a INT NOT NULL, b VARCHAR(5), PRIMARY KEY (a)); INSERT INTO t VALUES (NULL,'x => fault 86 Unfit
CREATE TABLE t (a INT NOT NULL, b VARCHAR(5), PRIMARY KEY (a)); INSERT INTO t VALUES (1,-'x => fault 89 Lex
CREATE TABLE t (a INT NOT NULL, b VARCHAR(5), PRIMARY KEY (a)); INSERT INTO t VALUES (1,- => fault 64 Statement
CREATE TABLE t (a INT NOT NULL, b VARCHAR(5), PRIMARY KEY (a)); INSERT INTO t VALUES (1,'x',3 'y => fault 94 Lex
CREATE TABLE t (a INT NOT NULL, b VARCHAR(5), PRIMARY KEY (a)); INSERT INTO u 'x => fault 78 Lex
CREATE TABLE t (a INT NOT NULL, b VARCHAR(5), PRIMARY KEY (a)); INSERT INTO t (a,a 'x => fault 83 Lex
CREATE TABLE t (a INT NOT NULL, b VARCHAR(5), PRIMARY KEY (a)); INSERT INTO t FROM; INSERT INTO t VALUES ('x => fault 64 Statement
CREATE TABLE t (a INT NOT NULL, b VARCHAR(5), PRIMARY KEY (a)); INSERT INTO u VALUES (NULL,'x => fault 76 Table
";

/// Dumps, and their outlines.
pub const OUTLINES: &str = "\
CREATE TABLE t (a INT); INSERT INTO t VALUES (1) => create 0..22 insert 24
SET x; CREATE TABLE t (a INT) => create 7..29
DROP TABLE t => 
INSERT INTO t VALUES (1); CREATE TABLE t (a INT); CREATE TABLE t (a INT) => create 26..48 insert 0 fault 50 SecondCreate
CREATE TABLE t (a INT); foo; CREATE TABLE t (a INT) => create 0..22 fault 24 Statement
CREATE TABLE t (a INT) 'x => create 0..25 fault 23 Lex
INSERT INTO t VALUES (1,'x =>  fault 24 Lex
INSERT INTO t VALUES (1); INSERT INTO t VALUES ('x =>  insert 0 fault 48 Lex
";

/// As dumpling writes a table.
pub const DUMPLING: &str = "\
/*!40101 SET NAMES binary*/;
CREATE TABLE `t` (
  `id` bigint NOT NULL AUTO_INCREMENT,
  `v` varchar(20) COLLATE utf8mb4_bin DEFAULT NULL,
  PRIMARY KEY (`id`) /*T![clustered_index] CLUSTERED */,
  KEY `k` (`v`)
) ENGINE=InnoDB DEFAULT CHARSET=utf8mb4 COLLATE=utf8mb4_bin;
INSERT INTO `t` VALUES
(1,'a'),
(2,NULL);
";

/// As mysqldump writes a table.
pub const MYSQLDUMP: &str = "\
-- MySQL dump 10.13  Distrib 8.0.36

/*!40101 SET @OLD_CHARACTER_SET_CLIENT=@@CHARACTER_SET_CLIENT */;
SET @saved_cs_client = @@character_set_client;
DROP TABLE IF EXISTS `t`;
CREATE TABLE `t` (
  `id` int NOT NULL,
  `v` varchar(20) DEFAULT NULL,
  PRIMARY KEY (`id`)
) ENGINE=InnoDB DEFAULT CHARSET=utf8mb4;

LOCK TABLES `t` WRITE;
/*!40000 ALTER TABLE `t` DISABLE KEYS */;
INSERT INTO `t` VALUES (1,'it''s'),(2,NULL);
/*!40000 ALTER TABLE `t` ENABLE KEYS */;
UNLOCK TABLES;
-- Dump completed
";

/// A dump that is cut at each of its bytes.
pub const WHOLE: &str = "\
CREATE TABLE t (a INT NOT NULL, PRIMARY KEY (a)); INSERT INTO t VALUES (1),(2);";
