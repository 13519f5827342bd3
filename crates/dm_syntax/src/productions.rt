//! The grammar of the statements that are read, as constants; `specs/Productions.antt` has it for people to read.

use crate::{class, role, terminal};
use dm_grammar::{Rule, UNSUPPORTED};

macro_rules! all_of {
    ($only:expr) => { $only };
    ($first:expr, $($rest:expr),+) => { Rule::Seq(&$first, &all_of!($($rest),+)) };
}

macro_rules! one_of {
    ($only:expr) => { $only };
    ($first:expr, $($rest:expr),+) => { Rule::Or(&$first, &one_of!($($rest),+)) };
}

macro_rules! optional {
    ($rule:expr) => {
        Rule::Or(&Rule::Empty, &$rule)
    };
}

macro_rules! token {
    ($class:expr, $role:expr) => {
        Rule::Word($class, $role)
    };
}

macro_rules! plain {
    ($class:expr) => {
        Rule::Word($class, role::FILLER)
    };
}

macro_rules! unsupported {
    ($class:expr) => {
        Rule::Word($class, UNSUPPORTED)
    };
}

macro_rules! separated {
    ($item:expr, $role:expr) => {
        Rule::List(&$item, terminal::COMMA, $role)
    };
}

macro_rules! rest_from {
    ($class:expr) => {
        optional!(all_of!(plain!($class), ANYTHING))
    };
}

macro_rules! table_name_from {
    ($class:expr) => {
        all_of!(token!($class, role::NAME_PART), SECOND_PART)
    };
}

macro_rules! table_name_and_rest {
    ($class:expr) => {
        all_of!(
            token!($class, role::NAME_PART),
            one_of!(SECOND_AND_REST, rest_from!(class::BEHIND_NAME))
        )
    };
}

macro_rules! table_name_behind {
    ($clause:expr) => {
        one_of!(
            all_of!(
                token!(terminal::IF, role::NAME_PART),
                one_of!(all_of!($clause, TABLE_NAME), SECOND_PART)
            ),
            table_name_from!(class::TABLE_NAME)
        )
    };
}

macro_rules! in_brackets {
    ($role:expr) => {
        all_of!(
            plain!(terminal::OPENING),
            token!(terminal::WHOLE, $role),
            plain!(terminal::CLOSING)
        )
    };
}

macro_rules! moment {
    ($role:expr) => {
        all_of!(
            token!(terminal::NOW, $role),
            optional!(all_of!(
                plain!(terminal::OPENING),
                optional!(token!(terminal::WHOLE, role::NOW_FRACTION)),
                plain!(terminal::CLOSING)
            ))
        )
    };
}

macro_rules! constraint {
    ($check:expr) => {
        all_of!(
            optional!(all_of!(
                plain!(terminal::CONSTRAINT),
                optional!(token!(class::COLUMN_NAME, role::CONSTRAINT_NAME))
            )),
            one_of!(PRIMARY_KEY, UNIQUE_KEY, $check, FOREIGN_KEY)
        )
    };
}

macro_rules! create_index_on {
    ($role:expr, $table:expr) => {
        all_of!(
            token!(terminal::INDEX, $role),
            token!(class::NAME, role::KEY_NAME),
            INDEX_TYPE,
            plain!(terminal::ON),
            $table
        )
    };
}

macro_rules! drop_index_on {
    ($table:expr) => {
        all_of!(
            token!(terminal::INDEX, role::DROP_INDEX),
            token!(class::NAME, role::DROPPED_KEY),
            plain!(terminal::ON),
            $table
        )
    };
}

const ANYTHING: Rule<'static> = Rule::Many(&plain!(class::ANY));

const SECOND_PART: Rule<'static> = optional!(all_of!(
    plain!(terminal::POINT),
    token!(class::NAME, role::NAME_SECOND)
));

const SECOND_AND_REST: Rule<'static> = all_of!(
    plain!(terminal::POINT),
    token!(class::NAME, role::NAME_SECOND),
    ANYTHING
);

const TABLE_NAME: Rule<'static> = table_name_from!(class::NAME);

const EXISTS: Rule<'static> = token!(terminal::EXISTS, role::EXISTS);

const NOT_EXISTS: Rule<'static> = all_of!(plain!(terminal::NOT), EXISTS);

const INTEGER_TYPE: Rule<'static> = all_of!(
    token!(class::INTEGER, role::TYPE),
    optional!(in_brackets!(role::FILLER)),
    Rule::Many(&one_of!(
        plain!(terminal::SIGNED),
        token!(terminal::UNSIGNED, role::UNSIGNED)
    ))
);

const DECIMAL_TYPE: Rule<'static> = all_of!(
    token!(terminal::DECIMAL, role::TYPE),
    optional!(all_of!(
        plain!(terminal::OPENING),
        token!(terminal::WHOLE, role::PRECISION),
        optional!(all_of!(
            plain!(terminal::COMMA),
            token!(terminal::WHOLE, role::SCALE)
        )),
        plain!(terminal::CLOSING)
    )),
    optional!(unsupported!(terminal::UNSIGNED))
);

const STRING_TYPE: Rule<'static> = one_of!(
    all_of!(
        token!(class::SHORT_STRING, role::TYPE),
        optional!(in_brackets!(role::CHAR_LENGTH))
    ),
    all_of!(
        token!(class::LONG_STRING, role::TYPE),
        in_brackets!(role::STRING_LENGTH)
    )
);

const LOB_TYPE: Rule<'static> = all_of!(
    token!(class::LOB, role::TYPE),
    optional!(unsupported!(terminal::OPENING))
);

const TIME_TYPE: Rule<'static> = one_of!(
    token!(terminal::DATE, role::TYPE),
    all_of!(
        token!(terminal::YEAR, role::TYPE),
        optional!(in_brackets!(role::YEAR_WIDTH))
    ),
    all_of!(
        token!(class::TIME, role::TYPE),
        optional!(in_brackets!(role::FRACTION))
    )
);

const DATA_TYPE: Rule<'static> = one_of!(
    INTEGER_TYPE,
    token!(terminal::BOOL, role::TYPE),
    DECIMAL_TYPE,
    STRING_TYPE,
    LOB_TYPE,
    TIME_TYPE,
    unsupported!(class::OTHER_TYPE)
);

const LITERAL: Rule<'static> = one_of!(
    token!(class::PLAIN_LITERAL, role::LITERAL),
    all_of!(
        token!(terminal::MINUS, role::MINUS),
        token!(class::NUMBER, role::LITERAL)
    ),
    all_of!(
        plain!(terminal::INTRODUCER),
        token!(terminal::STRING, role::LITERAL)
    )
);

const DEFAULT_VALUE: Rule<'static> = all_of!(
    token!(terminal::DEFAULT, role::DEFAULT),
    one_of!(LITERAL, moment!(role::NOW), unsupported!(terminal::OPENING))
);

const CHARACTER_SET: Rule<'static> = one_of!(
    plain!(terminal::CHARSET),
    all_of!(plain!(terminal::CHARACTER), plain!(terminal::SET))
);

const SET_NAME: Rule<'static> = one_of!(
    plain!(terminal::CHARACTER_SET),
    unsupported!(class::OTHER_SET)
);

const COLUMN_ATTRIBUTE: Rule<'static> = one_of!(
    all_of!(
        token!(terminal::NOT, role::NOT_NULL),
        plain!(terminal::NULL)
    ),
    token!(terminal::NULL, role::NULL_WRITTEN),
    DEFAULT_VALUE,
    all_of!(
        plain!(terminal::ON),
        plain!(terminal::UPDATE),
        moment!(role::FILLER)
    ),
    token!(terminal::AUTO_INCREMENT, role::AUTO_INCREMENT),
    token!(terminal::UNIQUE, role::UNIQUE_COLUMN),
    token!(terminal::KEY, role::KEY_COLUMN),
    all_of!(
        plain!(terminal::PRIMARY),
        token!(terminal::KEY, role::KEY_COLUMN)
    ),
    all_of!(plain!(terminal::COMMENT), plain!(terminal::STRING)),
    all_of!(plain!(terminal::COLLATE), plain!(class::WORD)),
    all_of!(CHARACTER_SET, SET_NAME),
    all_of!(plain!(terminal::STORAGE), plain!(class::WORD)),
    plain!(terminal::VISIBLE),
    unsupported!(terminal::GENERATED),
    unsupported!(terminal::AS)
);

pub const COLUMN_DEFINITION: Rule<'static> = all_of!(
    token!(class::COLUMN_NAME, role::COLUMN_NAME),
    DATA_TYPE,
    Rule::Many(&COLUMN_ATTRIBUTE)
);

const INDEX_TYPE: Rule<'static> = optional!(all_of!(
    plain!(terminal::USING),
    plain!(terminal::BTREE)
));

const KEY_PART: Rule<'static> = one_of!(
    unsupported!(terminal::OPENING),
    all_of!(
        token!(class::NAME, role::KEY_PART),
        optional!(unsupported!(terminal::OPENING)),
        optional!(plain!(terminal::ASC))
    )
);

const KEY_PARTS: Rule<'static> = all_of!(
    plain!(terminal::OPENING),
    separated!(KEY_PART, role::FILLER),
    plain!(terminal::CLOSING)
);

const KEY_BODY: Rule<'static> = all_of!(INDEX_TYPE, KEY_PARTS, INDEX_TYPE);

const PRIMARY_KEY: Rule<'static> = all_of!(
    plain!(terminal::PRIMARY),
    token!(terminal::KEY, role::PRIMARY_KEY),
    KEY_BODY
);

const UNIQUE_KEY: Rule<'static> = all_of!(
    token!(terminal::UNIQUE, role::UNIQUE_KEY),
    optional!(plain!(class::KEY_OR_INDEX)),
    optional!(token!(class::KEY_NAME, role::KEY_NAME)),
    KEY_BODY
);

const PLAIN_KEY: Rule<'static> = all_of!(token!(class::PLAIN_KEY, role::PLAIN_KEY), Rule::Skip);

const FOREIGN_KEY: Rule<'static> = unsupported!(terminal::FOREIGN);

const CHECK_DEFINITION: Rule<'static> = all_of!(plain!(terminal::CHECK), Rule::Skip);

/// A definition of a CREATE TABLE that is no column.
pub const KEY_DEFINITION: Rule<'static> = one_of!(
    constraint!(CHECK_DEFINITION),
    PLAIN_KEY,
    unsupported!(class::ANOTHER_TABLE)
);

pub const TABLE_OPTION: Rule<'static> = one_of!(
    all_of!(CHARACTER_SET, optional!(plain!(terminal::EQUALS)), SET_NAME),
    plain!(class::TABLE_OPTION),
    unsupported!(class::QUERY)
);

pub const CREATE_TABLE_HEAD: Rule<'static> = all_of!(
    token!(terminal::TABLE, role::CREATE_TABLE),
    table_name_behind!(NOT_EXISTS)
);

/// What stands behind the definitions of a CREATE TABLE.
pub const TABLE_END: Rule<'static> = all_of!(plain!(terminal::CLOSING), Rule::Many(&TABLE_OPTION));

pub const DEFINITIONS_OPENING: Rule<'static> = token!(terminal::OPENING, role::DEFINITION);

pub const CREATE_WORD: Rule<'static> = plain!(terminal::CREATE);

pub const QUERY: Rule<'static> = unsupported!(class::QUERY);

pub const SPOT: Rule<'static> = optional!(one_of!(
    token!(terminal::FIRST, role::FIRST),
    all_of!(
        plain!(terminal::AFTER),
        token!(class::NAME, role::AFTER_NAME)
    )
));

pub const ADD_WORD: Rule<'static> = token!(terminal::ADD, role::ADD);

pub const PLACED_COLUMN: Rule<'static> = all_of!(COLUMN_DEFINITION, SPOT);

pub const ADDED_COLUMNS: Rule<'static> = all_of!(
    token!(terminal::OPENING, role::ADD_MORE),
    separated!(COLUMN_DEFINITION, role::ADD_MORE),
    plain!(terminal::CLOSING)
);

pub const MAYBE_COLUMN: Rule<'static> = optional!(plain!(terminal::COLUMN));

/// What may be added that is no column.
pub const ADDED_KEY: Rule<'static> = one_of!(
    constraint!(unsupported!(terminal::CHECK)),
    PLAIN_KEY,
    unsupported!(terminal::PARTITION)
);

const DROP_CHANGE: Rule<'static> = all_of!(
    token!(terminal::DROP, role::DROP),
    one_of!(
        all_of!(
            MAYBE_COLUMN,
            token!(class::COLUMN_NAME, role::DROPPED_COLUMN)
        ),
        all_of!(
            plain!(class::KEY_OR_INDEX),
            token!(class::NAME, role::DROPPED_KEY)
        ),
        all_of!(
            plain!(terminal::PRIMARY),
            token!(terminal::KEY, role::PRIMARY_KEY)
        ),
        FOREIGN_KEY,
        unsupported!(terminal::PARTITION)
    )
);

pub const MODIFY_CHANGE: Rule<'static> = all_of!(
    one_of!(
        all_of!(token!(terminal::MODIFY, role::MODIFY), MAYBE_COLUMN),
        all_of!(
            token!(terminal::CHANGE, role::CHANGE),
            MAYBE_COLUMN,
            token!(class::COLUMN_NAME, role::OLD_NAME)
        )
    ),
    PLACED_COLUMN
);

const ALTER_CHANGE: Rule<'static> = all_of!(
    token!(terminal::ALTER, role::ALTER),
    MAYBE_COLUMN,
    token!(class::COLUMN_NAME, role::ALTERED),
    one_of!(
        all_of!(
            plain!(terminal::SET),
            plain!(terminal::DEFAULT),
            one_of!(LITERAL, unsupported!(terminal::OPENING))
        ),
        all_of!(plain!(terminal::DROP), plain!(terminal::DEFAULT))
    )
);

const RENAME_CHANGE: Rule<'static> = all_of!(
    token!(terminal::RENAME, role::RENAME),
    one_of!(
        all_of!(
            plain!(terminal::COLUMN),
            plain!(class::NAME),
            plain!(terminal::TO),
            plain!(class::NAME)
        ),
        all_of!(
            plain!(class::KEY_OR_INDEX),
            token!(class::NAME, role::RENAMED_KEY),
            plain!(terminal::TO),
            plain!(class::NAME)
        ),
        all_of!(
            one_of!(
                all_of!(plain!(terminal::TO), plain!(class::NAME)),
                plain!(class::RENAMED)
            ),
            optional!(all_of!(plain!(terminal::POINT), plain!(class::NAME)))
        ),
        unsupported!(terminal::AS)
    )
);

const OPTION_CHANGE: Rule<'static> = one_of!(
    token!(terminal::FORCE, role::NO_EFFECT),
    all_of!(
        token!(class::OPTION_WORD, role::NO_EFFECT),
        optional!(plain!(terminal::EQUALS)),
        plain!(class::OPTION_VALUE)
    )
);

/// The changes that define no column and no key.
pub const OTHER_CHANGE: Rule<'static> = one_of!(
    DROP_CHANGE,
    ALTER_CHANGE,
    RENAME_CHANGE,
    OPTION_CHANGE,
    unsupported!(class::OTHER_CHANGE)
);

pub const ALTER_WORD: Rule<'static> = plain!(terminal::ALTER);

pub const ALTER_TABLE_HEAD: Rule<'static> = all_of!(
    token!(terminal::TABLE, role::ALTER_TABLE),
    TABLE_NAME
);

const CREATE_UNIQUE_INDEX: Rule<'static> = all_of!(
    create_index_on!(role::UNIQUE_INDEX, TABLE_NAME),
    KEY_PARTS,
    INDEX_TYPE
);

const CREATE_PLAIN_INDEX: Rule<'static> = all_of!(
    create_index_on!(role::PLAIN_INDEX, TABLE_NAME),
    plain!(terminal::OPENING),
    separated!(Rule::Skip, role::FILLER),
    plain!(terminal::CLOSING),
    ANYTHING
);

const DROP_INDEX: Rule<'static> = drop_index_on!(TABLE_NAME);

const MORE_NAMES: Rule<'static> = all_of!(
    Rule::Many(&all_of!(plain!(terminal::COMMA), TABLE_NAME)),
    rest_from!(class::BEHIND_NAMES)
);

const DROP_TABLE: Rule<'static> = all_of!(
    token!(terminal::TABLE, role::DROP_TABLE),
    one_of!(
        all_of!(
            token!(terminal::IF, role::NAME_PART),
            one_of!(
                all_of!(EXISTS, TABLE_NAME, MORE_NAMES),
                all_of!(
                    SECOND_PART,
                    one_of!(
                        all_of!(plain!(terminal::COMMA), TABLE_NAME, MORE_NAMES),
                        rest_from!(class::BEHIND_DROPPED)
                    )
                )
            )
        ),
        all_of!(table_name_from!(class::TABLE_NAME), MORE_NAMES)
    )
);

const TRUNCATE_TABLE: Rule<'static> = all_of!(
    token!(terminal::TRUNCATE, role::TRUNCATE),
    one_of!(
        all_of!(plain!(terminal::TABLE), table_name_and_rest!(class::NAME)),
        table_name_and_rest!(class::TRUNCATED)
    )
);

const RENAME_TABLE: Rule<'static> = all_of!(
    token!(terminal::TABLE, role::RENAME_TABLE),
    separated!(
        all_of!(TABLE_NAME, plain!(terminal::TO), TABLE_NAME),
        role::FILLER
    ),
    rest_from!(class::BEHIND_NAMES)
);

/// Any other statement, of what CREATE UNIQUE INDEX, another CREATE INDEX and DROP INDEX are behind their first word.
macro_rules! any_other {
    ($unique_index:expr, $plain_index:expr, $dropped_index:expr) => {
        optional!(one_of!(
            all_of!(
                plain!(terminal::CREATE),
                one_of!(
                    all_of!(
                        plain!(terminal::UNIQUE),
                        one_of!($unique_index, rest_from!(class::NOT_INDEX))
                    ),
                    all_of!(
                        plain!(terminal::FULLTEXT),
                        one_of!($plain_index, rest_from!(class::NOT_INDEX))
                    ),
                    $plain_index,
                    rest_from!(class::NOT_CREATED)
                )
            ),
            all_of!(plain!(terminal::ALTER), rest_from!(class::NOT_TABLE)),
            all_of!(
                plain!(terminal::DROP),
                one_of!(
                    DROP_TABLE,
                    $dropped_index,
                    rest_from!(class::NOT_DROPPED)
                )
            ),
            TRUNCATE_TABLE,
            all_of!(
                plain!(terminal::RENAME),
                one_of!(RENAME_TABLE, rest_from!(class::NOT_TABLE))
            ),
            all_of!(token!(class::ROW, role::ROW_STATEMENT), ANYTHING),
            all_of!(plain!(class::OTHER_STATEMENT), ANYTHING)
        ))
    };
}

pub const OTHER_STATEMENT: Rule<'static> = any_other!(
    CREATE_UNIQUE_INDEX,
    CREATE_PLAIN_INDEX,
    DROP_INDEX
);

pub const CREATE_TABLE_START: Rule<'static> = all_of!(
    plain!(terminal::CREATE),
    token!(terminal::TABLE, role::CREATE_TABLE),
    one_of!(
        all_of!(
            token!(terminal::IF, role::NAME_PART),
            one_of!(
                all_of!(NOT_EXISTS, table_name_and_rest!(class::NAME)),
                SECOND_AND_REST,
                rest_from!(class::BEHIND_CREATED)
            )
        ),
        table_name_and_rest!(class::TABLE_NAME)
    )
);

pub const ALTER_TABLE_START: Rule<'static> = all_of!(
    plain!(terminal::ALTER),
    token!(terminal::TABLE, role::ALTER_TABLE),
    table_name_and_rest!(class::NAME)
);

pub const OTHER_START: Rule<'static> = any_other!(
    create_index_on!(role::UNIQUE_INDEX, table_name_and_rest!(class::NAME)),
    create_index_on!(role::PLAIN_INDEX, table_name_and_rest!(class::NAME)),
    drop_index_on!(table_name_and_rest!(class::NAME))
);
