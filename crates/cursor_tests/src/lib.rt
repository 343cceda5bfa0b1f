//! An example of the cursor: each single word is looked at and taken. A crate of its own, since tests have their crate
//! proved twice.
#![tactic(auto)]

#[cfg(test)]
mod tests {
    use cursor::{AnyInteger, AnyName, Cursor, Stop};
    use grammar::{Name, Number};
    use std::test::Fail;
    use words::{Keyword, Kind, Sign, Token};

    // The words of `q2, 7 END`.
    #[test]
    fn takes_each_word(rt: HostRuntime) -> Result<(), Fail> {
        let token = |kind, place| Token { kind, place };
        let tokens = [
            token(Kind::Name(2), 0),
            token(Kind::Mark(Sign::Comma), 2),
            token(Kind::Integer(7), 4),
            token(Kind::Reserved(Keyword::End), 6),
        ];
        let mut cursor = Cursor::new(&tokens);
        assert!(rt; cursor.at(AnyName) && !cursor.at(AnyInteger));
        assert!(rt; cursor.take(AnyName)? == Name { place: 0, len: 2 });
        assert!(rt; cursor.take(Sign::Dot) == Err(Stop::Unexpected));
        assert!(rt; cursor.at(Sign::Comma) && !cursor.at(Sign::Dot));
        assert!(rt; cursor.take(Sign::Comma)? == 2);
        assert!(rt; cursor.at_list());
        assert!(rt; cursor.take(AnyInteger)? == Number { place: 4, value: 7 });
        assert!(rt; cursor.at(Keyword::End) && !cursor.at(Keyword::Body));
        assert!(rt; cursor.take(Keyword::End)? == 6);
        assert!(rt; cursor.rest().is_empty());
        Ok(())
    }
}
